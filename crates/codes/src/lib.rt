// Answers as numbers, for C: the refusal's number alone where a function only passes or refuses; else it stands in the high word, and the value in the low one.
#![tactic(auto)]

ghost use Rattle.std.specs.Prelude.{◌≡◌, ◌*◌, ◌^◌};
ghost use Rattle.definition.specs.Answers.{number_of, acceptance_says, words_say, tree_says, completed_says, pass_code, value_code};
ghost use Rattle.memory_definition.specs.Answers.{memory_says, memory_code};
ghost use Rattle.codes.specs.Counted.{Counted, code_or};

use definition::answers::{Refusal, Slot};

// Of a function that only passes or refuses: whether a file is accepted, or a sheet passes.
#[tactic(auto, unfolding(definition::specs::Answers::pass_code, definition::specs::Answers::acceptance_says))]
pub fn pass_code(answer: Result<(), Refusal>) -> u32
    ensures { result ≡ pass_code (acceptance_says answer) }
{
    match answer {
        Ok(()) => 0,
        Err(refusal) => refusal.number(),
    }
}

fn refusal_code(refusal: Refusal) -> u64
    ensures { result ≡ number_of refusal * 2 ^ 32 }
{
    (refusal.number() as u64) * 0x1_0000_0000
}

// A number of words: of work words, or of a sheet.
#[tactic(auto, unfolding(definition::specs::Answers::value_code, definition::specs::Answers::packed, definition::specs::Answers::words_say))]
pub fn words_code(answer: Result<usize, Refusal>) -> u64
    ensures { result ≡ value_code (words_say answer) }
{
    answer.map_or_else(refusal_code, |words| words as u64)
}

// A number of nodes or bytes, or the number that stands for none.
#[tactic(auto, unfolding(crate::specs::Counted::code_or))]
fn code_or(answer: Result<Option<usize>, Refusal>, none: u32) -> u64
    ensures { result ≡ code_or none answer }
{
    match answer {
        Ok(Some(many)) => many as u64,
        Ok(None) => none as u64,
        Err(refusal) => refusal_code(refusal),
    }
}

#[tactic(auto, using(crate::proofs::Counting::tree_number))]
pub fn tree_code(answer: Result<Option<usize>, Refusal>) -> u64
    ensures { result ≡ value_code (tree_says answer) }
{
    code_or(answer, 0)
}

// A completed initializer's kind stands above its nodes, of which there are at most 2,048.
#[tactic(auto, unfolding(definition::specs::Answers::value_code, definition::specs::Answers::packed, definition::specs::Answers::completed_says))]
pub fn completed_code(answer: Result<Option<Slot>, Refusal>) -> u64
    requires { Counted answer }
    ensures { result ≡ value_code (completed_says answer) }
{
    match answer {
        Ok(Some(slot)) => (slot.kind as u64) * 65536 + slot.nodes as u64,
        Ok(None) => 0, // left
        Err(refusal) => refusal_code(refusal),
    }
}

// A structure without fields has 0 bytes, so none is a number of its own.
#[tactic(auto, using(crate::proofs::Counting::memory_number))]
pub fn memory_code(answer: Result<Option<usize>, Refusal>) -> u64
    ensures { result ≡ memory_code (memory_says answer) }
{
    code_or(answer, u32::MAX)
}
