// Where things stand in a declaration file (document 01, "Sections, their makers and readers").
ghost use Rattle.std.specs.Prelude.{◌≡◌, get_or};
ghost use Rattle.definition.specs.Layout.{record_words, most_records};

// The sections, in the order of the file.
pub const SETTINGS: usize = 0;

pub const SHAPES: usize = 1;

pub const MEMBERS: usize = 2;

pub const SHAPE_FIELDS: usize = 3;

pub const DIMENSIONS: usize = 4;

pub const TYPES: usize = 5;

pub const BLOCK_FIELDS: usize = 6;

pub const ELEMENTS: usize = 7;

pub const VARIABLES: usize = 8;

pub const INITIALIZERS: usize = 9;

pub const ENTRIES: usize = 10;

pub const EXPRESSIONS: usize = 11;

pub const CONSTANTS: usize = 12;

pub const CHARACTERS: usize = 13;

pub const SECTIONS: usize = 14;

// The word that stands for "inline" in a named type, and for "no block record".
pub const INLINE: u32 = 4294967295;

// No tree has more nodes (refusal 8).
pub const MOST_NODES: usize = 2048;

pub const NODE_WORDS: usize = 6;

// The most words of a tree, and of a type's line of a sheet: rank, state, count and such a tree.
pub const TREE_WORDS: usize = MOST_NODES * NODE_WORDS;

pub const LINE_WORDS: usize = 3 + TREE_WORDS;

const RECORD_WORDS: [usize; 14] = [1, 5, 1, 3, 2, 11, 3, 2, 4, 8, 4, 2, 5, 1];

const MOST_RECORDS: [usize; 14] = [
    1, 1024, 4096, 4096, 4096, 1024, 4096, 4096, 4096, 4096, 8192, 4096, 8192, 65536,
];

// A section's entry in a table; 0 for a number that is no section's.
fn of_section(table: &[usize], section: usize) -> usize
    ensures { result ≡ get_or table.now section 0 }
{
    table.get(section).copied().unwrap_or(0)
}

// How many words a record of a section has.
#[tactic(auto, unfolding(crate::specs::Layout::record_words, crate::specs::Layout::words_of_records))]
pub fn record_words(section: usize) -> usize
    ensures { result ≡ record_words section }
{
    of_section(&RECORD_WORDS, section)
}

// The most records that a section may have.
#[tactic(auto, unfolding(crate::specs::Layout::most_records, crate::specs::Layout::limits_of_records))]
pub fn most_records(section: usize) -> usize
    ensures { result ≡ most_records section }
{
    of_section(&MOST_RECORDS, section)
}
