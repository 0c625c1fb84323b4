// The functions that C and Rust link: those of start_values, under the same names and clauses. What each number says is `pass_code` and `value_code` of the definition (specs/Answers.antt).
#![tactic(auto)]

ghost use Rattle.std.specs.Prelude.{◌≡◌};
ghost use Rattle.definition.specs.Answers.{accept_answer, words_answer, line_words, room_words, pass_code, value_code};

pub mod convert;
pub mod sheets;
pub mod start_memory;
pub mod trees;

// 0 for an accepted file, or its first refusal of 1 to 6.
#[unsafe(no_mangle)]
pub extern "C" fn wirkesu_accept(file: &[u32]) -> u32
    ensures { result ≡ pass_code (accept_answer file.now) }
{
    start_values::wirkesu_accept(file)
}

// How many words `lines` must have, or the file's refusal in the high word.
#[unsafe(no_mangle)]
pub extern "C" fn wirkesu_line_words(file: &[u32]) -> u64
    ensures { result ≡ value_code (words_answer file.now (line_words file.now)) }
{
    start_values::wirkesu_line_words(file)
}

// How many words `room` must have, or the file's refusal in the high word.
#[unsafe(no_mangle)]
pub extern "C" fn wirkesu_room_words(file: &[u32]) -> u64
    ensures { result ≡ value_code (words_answer file.now (room_words file.now)) }
{
    start_values::wirkesu_room_words(file)
}
