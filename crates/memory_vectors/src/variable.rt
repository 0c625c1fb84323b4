// A variable of a file, and the work words that the calls for it are lent.
use definition::answers::Refusal;
use memory::read::read_memory;
use memory::write::write_memory;

#[derive(Drop)]
pub struct Variable<'a> {
    pub file: &'a [u32],
    pub number: u32,
    pub lines: &'a mut [u32],
    pub room: &'a mut [u32],
}

impl Variable<'_> {
    pub fn write(&mut self, bytes: &mut [u8]) -> Result<Option<usize>, Refusal> {
        write_memory(self.file, self.number, bytes, self.lines, self.room)
    }

    pub fn read(
        &mut self,
        bytes: &[u8],
        nodes: &mut [u32],
        characters: &mut [u32],
    ) -> Result<Option<usize>, Refusal> {
        read_memory(
            self.file,
            self.number,
            bytes,
            nodes,
            characters,
            self.lines,
            self.room,
        )
    }
}
