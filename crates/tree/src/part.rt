// What kind of value a tree is, and its parts.
#![tactic(auto, using(crate::proofs::Finds::finds), unfolding(crate::specs::Part::value_of, crate::specs::Part::value_at, crate::specs::Part::find_of, crate::specs::Part::nth_of, crate::specs::Part::part_of))]

ghost use Rattle.std.specs.Prelude.{◌≡◌};
ghost use Rattle.tree.specs.Part.{value_of, value_at, seek, find_of, nth_of, part_of};

use crate::extent::{Span, after, parts_of, whole};
use crate::node::read;
use definition::layout::NODE_WORDS;

// A value's kind, with how many parts it has.
#[derive(Clone, Copy)]
pub enum Value {
    Leaf,
    Array(u32),
    Structure(u32),
}

// What a node's words say. Nothing for a kind above 14.
pub fn value_of(kind: u32, low: u32) -> Option<Value>
    ensures { result ≡ value_of kind low }
{
    match kind {
        0..=12 => Some(Value::Leaf),
        13 => Some(Value::Array(low)),
        14 => Some(Value::Structure(low)),
        _ => None,
    }
}

// The kind of the value at a place: `let Some(Value::Structure(count)) = .. else` takes a structure apart.
pub fn value_at(s: &[u32], at: usize) -> Option<Value>
    ensures { result ≡ value_at s.now at }
{
    let n = read(s, at)?;
    value_of(n.value.kind, n.value.low)
}

// The first of so many trees from a place on that has a name.
pub fn find_from(s: &[u32], from: usize, count: u32, name: u32) -> Option<Span>
    ensures { result ≡ seek s.now name count from }
{
    let mut at = from;
    for _ in 0..count {
        let end = whole(s, at)?;
        if s[at] == name {
            return Some(Span { begin: at, end });
        }
        at = end;
    }
    None
}

// The first field of a structure that has a name; nothing for any other value.
pub fn find(s: &[u32], at: usize, name: u32) -> Option<Span>
    ensures { result ≡ find_of s.now at name }
{
    let v = value_at(s, at);
    let Some(Value::Structure(count)) = v else {
        return None;
    };
    find_from(s, at + NODE_WORDS, count, name)
}

// The tree behind so many others from a place on.
pub fn nth(s: &[u32], from: usize, i: usize) -> Option<Span>
    ensures { result ≡ nth_of s.now from i }
{
    let begin = after(s, from, i)?;
    let end = whole(s, begin)?;
    Some(Span { begin, end })
}

// A part of the tree at a place, by its number from 0.
pub fn part(s: &[u32], at: usize, i: u32) -> Option<Span>
    ensures { result ≡ part_of s.now at i }
{
    let n = read(s, at)?;
    if i < parts_of(n.value.kind, n.value.low) {
        nth(s, at + NODE_WORDS, i as usize)
    } else {
        None
    }
}
