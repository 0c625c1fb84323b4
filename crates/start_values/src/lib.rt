// The public functions, over numbers and slices; the crate start_values_c exports them for C and Rust to link. What each number says is `pass_code` and `value_code` of the definition (specs/Answers.antt).
#![tactic(auto, using(crate::proofs::Numbers::numbers))]

ghost use Rattle.std.specs.Prelude.{◌≡◌};
ghost use Rattle.definition.specs.Answers.{accept_answer, words_answer, line_words, room_words, pass_code, value_code};

use acceptance::accept::accept;
use acceptance::work::{line_words, room_words};
use codes::{pass_code, words_code};

pub mod convert;
pub mod sheets;
pub mod start_memory;
pub mod trees;

// 0 for an accepted file, or its first refusal of 1 to 6.
pub fn wirkesu_accept(file: &[u32]) -> u32
    ensures { result ≡ pass_code (accept_answer file.now) }
{
    pass_code(accept(file))
}

// How many words `lines` must have, or the file's refusal in the high word.
pub fn wirkesu_line_words(file: &[u32]) -> u64
    ensures { result ≡ value_code (words_answer file.now (line_words file.now)) }
{
    words_code(line_words(file))
}

// How many words `room` must have, or the file's refusal in the high word.
pub fn wirkesu_room_words(file: &[u32]) -> u64
    ensures { result ≡ value_code (words_answer file.now (room_words file.now)) }
{
    words_code(room_words(file))
}
