use std::io;

// Why the words of a file are not read: its bytes are no whole words, there is no room for them, it is not there, or reading failed.
#[derive(Drop)]
pub enum Unread {
    Odd,
    Long,
    Missing,
    Failed(io::Error),
}

impl From<io::Error> for Unread {
    fn from(error: io::Error) -> Unread {
        Unread::Failed(error)
    }
}
