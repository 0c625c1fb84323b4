// A node read from its bytes, by its form: nameless, unqualified and of the kind and width of its shape's built-in default.
#![tactic(auto, using(crate::proofs::Nodes::reads))]

ghost use Rattle.std.specs.Prelude.{◌≡◌, ◌+◌, ◌*◌, ◌/◌, ◌<◌, ◌≤◌, length, take, drop, eqb};
ghost use Rattle.definition.specs.Base.{pick};
ghost use Rattle.definition.specs.Records.{constant_of};
ghost use Rattle.tree.specs.Node.{as_node};
ghost use Rattle.memory_definition.specs.Numbers.{number_from, literal_read};
ghost use Rattle.memory_definition.specs.Forms.{size_as, node_of, real_read, string_read, node_as};
ghost use Rattle.memory_laws.specs.Same.{SizedAs};
ghost use Rattle.memory_nodes.specs.Reading.{own, seen};

use crate::bytes::number_from;
use crate::literal::{literal, literal_read};
use definition::layout::MEMBERS;
use definition::records::Constant;
use memory_definition::form::Form;
use reals::widen::widen;
use records::source::Source;
use tree::node::Node;

// With nothing but a kind and one word.
#[tactic(auto, using(crate::proofs::Nodes::leaves))]
fn simple(kind: u32, low: u32) -> Node
    ensures { result ≡ as_node (node_of (constant_of kind 0 low 0 0)) }
{
    Node::from(Constant {
        kind,
        sign: 0,
        low,
        high: 0,
        width: 0,
    })
}

#[tactic(auto, using(crate::proofs::Nodes::leaves))]
fn real_read(bits: u64) -> Node
    ensures { result ≡ as_node (real_read bits) }
{
    Node::from(literal(3, 0, 0, bits))
}

// Two bytes as a word.
pub fn short_from(bytes: &[u8], at: usize) -> u32
    requires { at + 2 ≤ length bytes.now }
    ensures is { result ≡ number_from (take 2 (drop at bytes.now)) }
    ensures small { result < 65536 }
{
    number_from(bytes, at, 2) as u32
}

// A string without characters begins at 0.
#[tactic(auto, using(crate::proofs::Nodes::leaves))]
fn begins(at: u32, many: u32) -> u32
    ensures { result ≡ pick (eqb many 0) 0 at }
{
    if many == 0 {
        return 0;
    }
    at
}

#[tactic(auto, using(crate::proofs::Nodes::leaves))]
fn string_read(at: u32, many: u32, width: u32) -> Node
    ensures { result ≡ as_node (string_read at many width) }
{
    Node::from(Constant {
        kind: 8,
        sign: 0,
        low: begins(at, many),
        high: many,
        width,
    })
}

#[tactic(auto, using(crate::proofs::Nodes::leaves))]
fn number_read(signed: bool, bits: u32, kind: u32, width: u32, bytes: &[u8], from: usize) -> Node
    requires { (0 < bits) × (8 * (bits / 8) ≡ bits) × (bits ≤ 64) × (from + bits / 8 ≤ length bytes.now) }
    ensures { result ≡ as_node (node_of (literal_read signed bits kind width (number_from (take (bits / 8) (drop from bytes.now))))) }
{
    let n = number_from(bytes, from, (bits / 8) as usize);
    Node::from(literal_read(signed, bits, kind, width, n))
}

// `head` and `parts` are the kind and the number of parts of the node that stands there; the characters of a string stand behind `at` others.
pub fn node_read(
    file: &Source<'_>,
    form: Form,
    at: u32,
    head: u32,
    parts: u32,
    bytes: &[u8],
    from: usize,
) -> Node
    requires { SizedAs form × (from + size_as form ≤ length bytes.now) }
    ensures { result ≡ as_node (node_as file.now form at (seen head parts) (own form bytes.now from)) }
{
    match form {
        Form::Head => simple(head, parts),
        Form::Null => simple(10, 0),
        Form::Bool => simple(0, number_from(bytes, from, 1) as u32),
        Form::Number {
            signed,
            bits,
            kind,
            width,
        } => number_read(signed, bits, kind, width, bytes, from),
        Form::Real => real_read(widen(number_from(bytes, from, 4) as u32)),
        Form::LongReal => real_read(number_from(bytes, from, 8)),
        Form::String { most: _, width } => string_read(at, short_from(bytes, from + 2), width),
        Form::Enumeration { first, count: _ } => {
            simple(9, file.run_word(MEMBERS, first, short_from(bytes, from), 0))
        }
        Form::Nothing => simple(0, 0),
    }
}
