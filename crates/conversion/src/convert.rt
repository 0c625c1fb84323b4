// A constant of a file as the node that it gives a place of one of the file's shapes.
#![tactic(auto, using(crate::proofs::convert::Laws::conversions))]

ghost use Rattle.std.specs.Prelude.{◌≡◌, MatchResult, length};
ghost use Rattle.definition.specs.Tree.{flatten, constant_tree};
ghost use Rattle.definition.specs.Ask.{ok, result_of};
ghost use Rattle.definition.specs.Scalar.{as_tree};
ghost use Rattle.definition.specs.Answers.{number_of, over, tree_says, tree_answer};
ghost use Rattle.definition.specs.Accept.{need};
ghost use Rattle.acceptance.specs.Admitted.{refusal_in};
ghost use Rattle.conversion.specs.Convert as Convert;
ghost use Rattle.conversion.specs.Convert.{Both, value_at, convert_refused, convert_answer, convert_out};

use acceptance::accept::held;
use acceptance::admit::admit;
use definition::answers::Refusal;
use definition::layout::{CONSTANTS, NODE_WORDS, SHAPES};
use definition::records::Constant;
use places::values::constant_value;
use records::file::File;
use scalar::node::node;

fn value_at(file: &File<'_>, shape: u32, constant: u32) -> Option<Constant>
    requires { Both file.now.source shape constant }
    ensures { as_tree (result_of result) ≡ value_at file.now.source shape constant }
{
    let s = file.source.shape(shape);
    constant_value(file, s, constant)
}

// Both numbers are a record's.
fn there(file: &File<'_>, shape: u32, constant: u32) -> Result<(), Refusal>
    ensures { refusal_in result ≡ need (Convert.there file.now.source shape constant) 7 (λ u. 0) }
{
    held(shape < file.source.count(SHAPES), Refusal::Missing)?;
    held(constant < file.source.count(CONSTANTS), Refusal::Missing)
}

// The accepted file that these words are, where both numbers are a record's, or its first refusal.
fn asked(words: &[u32], shape: u32, constant: u32) -> Result<File<'_>, Refusal>
    ensures { MatchResult result (λ file. (file.source ≡ words.now) × (convert_refused words.now shape constant ≡ 0)) (λ refusal. number_of refusal ≡ convert_refused words.now shape constant) }
{
    admit(words, |file| there(file, shape, constant))
}

// Writes a constant's node where there is room.
fn put(c: Constant, out: &mut [u32]) -> Result<Option<usize>, Refusal>
    ensures says { tree_says result ≡ tree_answer (ok (constant_tree c)) (length out.old) }
    ensures wrote { out.new ≡ over (flatten (constant_tree c)) out.old }
{
    if out.len() < NODE_WORDS {
        return Err(Refusal::Short);
    }
    out[..NODE_WORDS].copy_from_slice(&node(c));
    Ok(Some(1))
}

pub fn convert(
    words: &[u32],
    shape: u32,
    constant: u32,
    out: &mut [u32],
) -> Result<Option<usize>, Refusal>
    ensures says { tree_says result ≡ convert_answer words.now shape constant (length out.old) }
    ensures wrote { out.new ≡ convert_out words.now shape constant out.old }
{
    let file = asked(words, shape, constant)?;
    match value_at(&file, shape, constant) {
        Some(c) => put(c, out),
        None => Ok(None),
    }
}
