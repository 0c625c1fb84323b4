// A shape in words, as its record in a declaration file has them.
#![tactic(auto, using(crate::proofs::Putting::joined))]

ghost use Rattle.std.specs.Prelude.{◌≡◌, ◌+◌, ◌≤◌, length};
ghost use Rattle.memory_laws.specs.InWords.{shape_in};
ghost use Rattle.memory_layout.specs.Words.{Put, PutNode};

use definition::layout::NODE_WORDS;
use definition::records::Shape;
use tree::extent::parts_of;

// The five words of a shape's record, kind first, and a 0: as many as a node has. A shape of an unknown kind has the first kind that no record has.
#[tactic(auto, using(crate::proofs::Putting::joined), unfolding(definition::specs::Records::shape_of))]
fn shape_words(shape: Shape) -> [u32; 6]
    ensures { shape_in result 0 ≡ shape }
{
    match shape {
        Shape::Bool => [0, 0, 0, 0, 0, 0],
        Shape::Int { bits } => [1, bits, 0, 0, 0, 0],
        Shape::UInt { bits } => [2, bits, 0, 0, 0, 0],
        Shape::Real { bits } => [3, bits, 0, 0, 0, 0],
        Shape::Bytes { bits } => [4, bits, 0, 0, 0, 0],
        Shape::Time { bits } => [5, bits, 0, 0, 0, 0],
        Shape::Date { bits } => [6, bits, 0, 0, 0, 0],
        Shape::TimeOfDay { bits } => [7, bits, 0, 0, 0, 0],
        Shape::DateAndTime { bits } => [8, bits, 0, 0, 0, 0],
        Shape::String { length, width } => [9, length, width, 0, 0, 0],
        Shape::Enumeration {
            first,
            count,
            default,
            underlying,
        } => [10, first, count, default, underlying, 0],
        Shape::Structure { first, count } => [11, first, count, 0, 0, 0],
        Shape::Array {
            element,
            first,
            count,
        } => [12, element, first, count, 0, 0],
        Shape::Subrange {
            base,
            least,
            greatest,
        } => [13, base, least, greatest, 0, 0],
        Shape::FunctionBlock { name } => [14, name, 0, 0, 0, 0],
        Shape::Interface { name } => [15, name, 0, 0, 0, 0],
        Shape::Reference { target } => [16, target, 0, 0, 0, 0],
        Shape::Unknown => [17, 0, 0, 0, 0, 0],
    }
}

#[tactic(auto, using(crate::proofs::Putting::putting))]
fn put_shape(shapes: &mut [u32], at: usize, shape: Shape)
    requires { at + 6 ≤ length shapes.old }
    ensures { Put shape at shapes.old shapes.new }
{
    shapes[at..at + NODE_WORDS].copy_from_slice(&shape_words(shape));
}

// Writes the shape of the node at a place of a tree's words beside it, and answers how many parts follow the node.
pub fn put_node(tree: &[u32], at: usize, shape: Shape, shapes: &mut [u32]) -> u32
    requires { (at + 6 ≤ length tree.now) × (at + 6 ≤ length shapes.old) }
    ensures { PutNode tree.now shape at shapes.old result shapes.new }
{
    put_shape(shapes, at, shape);
    parts_of(tree[at + 1], tree[at + 3])
}
