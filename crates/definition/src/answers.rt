// What the public functions answer. Which answer is right, and what is left in the lent words, is in specs/Answers.antt.
#![tactic(auto)]

ghost use Rattle.std.specs.Prelude.{◌≡◌};
ghost use Rattle.definition.specs.Answers.{number_of};

// Why nothing is answered, by the numbers that documents 01 (to 13) and 02 give, in checking order.
#[derive(Clone, Copy, PartialEq, Eq)]
pub enum Refusal {
    // the words end before or after the last section does
    Ends = 1,
    // a section has more records than it may have, or Settings not one
    Counts = 2,
    // a word has a value that its record does not allow
    Words = 3,
    // a used number, link or run points where it must not
    Points = 4,
    // two shapes are alike
    Alike = 5,
    // an array shape has too many elements
    Elements = 6,
    // the asked type or variable is not in the file
    Missing = 7,
    // a tree formed on the way has too many nodes
    Large = 8,
    // the uses run in a circle, so there are no ranks
    Circle = 9,
    // a lent slice is too short
    Short = 10,
    // a sheet's words are not its three sections
    Sections = 11,
    // a rank is not above that of a used type
    Ranks = 12,
    // a line, its rank aside, is not its fixed words
    Lines = 13,
    // a shape does not hold its node, or no tree is written as these bytes
    NotHeld = 14,
    // a character is too wide for its bytes
    Wide = 15,
}

impl Refusal {
    #[tactic(auto, unfolding(crate::specs::Answers::number_of))]
    pub fn number(self) -> u32
        ensures { result ≡ number_of self }
    {
        self as u32
    }
}

// A completed initializer: its kind, and how many nodes the tree in its slot has.
#[derive(Clone, Copy)]
pub struct Slot {
    pub kind: u32,
    pub nodes: usize,
}
