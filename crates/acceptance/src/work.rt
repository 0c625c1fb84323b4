// How many work words functions want of their callers, in two slices: lines and room (specs/Answers.antt of `definition`).
#![tactic(auto, using(crate::proofs::Wanting::wanting))]

ghost use Rattle.std.specs.Prelude.{◌≡◌};
ghost use Rattle.definition.specs.Depth as Depth;
ghost use Rattle.definition.specs.Answers.{line_words, room_words, words_say, words_answer};

use crate::accept::accepted;
use crate::depths::levels;
use definition::answers::Refusal;
use definition::layout::{LINE_WORDS, TREE_WORDS, TYPES};
use records::file::File;

// The depths of entries and then those of shapes stand in one table, and a file has at most 8,192 entries and 1,024 shapes.
fn levels_of(file: &File<'_>) -> u32
    ensures { result ≡ Depth.levels file.now.source }
{
    let mut words = [0u32; 8192];
    levels(file, &mut words)
}

// A line of the most words for each type.
pub fn lines_of(file: &File<'_>) -> usize
    ensures { result ≡ line_words file.now.source }
{
    (file.source.count(TYPES) as usize) * LINE_WORDS
}

// Two trees of the most nodes for each level.
pub fn room_of(file: &File<'_>) -> usize
    ensures { result ≡ room_words file.now.source }
{
    (levels_of(file) as usize) * (2 * TREE_WORDS)
}

// The words that `lines` must have: the sheet writer needs no more of them than its answer slice has, the sheet check none.
pub fn line_words(words: &[u32]) -> Result<usize, Refusal>
    ensures { words_say result ≡ words_answer words.now (line_words words.now) }
{
    let file = accepted(words)?;
    Ok(lines_of(&file))
}

// The words that `room` must have.
pub fn room_words(words: &[u32]) -> Result<usize, Refusal>
    ensures { words_say result ≡ words_answer words.now (room_words words.now) }
{
    let file = accepted(words)?;
    Ok(room_of(&file))
}
