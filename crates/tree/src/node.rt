// Nodes: a name or 0, then a constant's five words.
#![tactic(auto, using(crate::proofs::Writes::writes))]

ghost use Rattle.std.specs.Prelude.{◌≡◌, ◌+◌, ◌≤◌, length};
ghost use Rattle.std.proofs.Math.Seq.{paste};
ghost use Rattle.definition.specs.Tree.{flatten, constant_tree};
ghost use Rattle.tree.specs.Node.{node_of, node_at, nameless, words_of, head_words, Renamed};
ghost use Rattle.tree.specs.Words.{WroteNode};

use crate::words::fits;
use definition::layout::NODE_WORDS;
use definition::records::Constant;

#[derive(Clone, Copy)]
pub struct Node {
    pub name: u32,
    pub value: Constant,
}

// A value that no field holds yet.
impl From<Constant> for Node {
    ghost from_gives = { λ c n. n ≡ nameless c };

    fn from(value: Constant) -> Node {
        Node { name: 0, value }
    }
}

// Its six words, in the order of the fields.
impl From<Node> for [u32; 6] {
    ghost from_gives = { λ n words. words ≡ words_of n };

    fn from(n: Node) -> [u32; 6] {
        let c = n.value;
        [n.name, c.kind, c.sign, c.low, c.high, c.width]
    }
}

// The node of the six words at a place.
pub fn get(s: &[u32], at: usize) -> Node
    requires { at + 6 ≤ length s.now }
    ensures { result ≡ node_of s.now at }
{
    Node {
        name: s[at],
        value: Constant {
            kind: s[at + 1],
            sign: s[at + 2],
            low: s[at + 3],
            high: s[at + 4],
            width: s[at + 5],
        },
    }
}

// The node at a place, if the words do not end before it does.
pub fn read(s: &[u32], at: usize) -> Option<Node>
    ensures { result ≡ node_at s.now at }
{
    if fits(s.len(), at, NODE_WORDS) {
        Some(get(s, at))
    } else {
        None
    }
}

fn put(out: &mut [u32], at: usize, n: Node)
    requires { at + 6 ≤ length out.old }
    ensures { out.new ≡ paste out.old at (words_of n) 6 }
{
    out[at..at + NODE_WORDS].copy_from_slice(&<[u32; 6]>::from(n));
}

// Writes a node where there is room, and answers where it ends.
pub fn write(out: &mut [u32], at: usize, n: Node) -> Option<usize>
    ensures { WroteNode out.old at (words_of n) result out.new }
{
    if fits(out.len(), at, NODE_WORDS) {
        put(out, at, n);
        Some(at + NODE_WORDS)
    } else {
        None
    }
}

// A value without parts (kinds 0 to 12).
#[tactic(auto, using(crate::proofs::Writes::writes), unfolding(definition::specs::Tree::flatten, definition::specs::Tree::constant_tree, definition::specs::Tree::leaf))]
pub fn write_leaf(out: &mut [u32], at: usize, value: Constant) -> Option<usize>
    ensures { WroteNode out.old at (flatten (constant_tree value)) result out.new }
{
    write(out, at, Node::from(value))
}

fn write_head(out: &mut [u32], at: usize, kind: u32, count: u32) -> Option<usize>
    ensures { WroteNode out.old at (head_words kind count) result out.new }
{
    let value = Constant {
        kind,
        sign: 0,
        low: count,
        high: 0,
        width: 0,
    };
    write(out, at, Node::from(value))
}

// The head of an array of so many values, which stand or will stand behind it.
pub fn write_array(out: &mut [u32], at: usize, count: u32) -> Option<usize>
    ensures { WroteNode out.old at (head_words 13 count) result out.new }
{
    write_head(out, at, 13, count)
}

// The head of a structure of so many fields, which stand or will stand behind it.
pub fn write_structure(out: &mut [u32], at: usize, count: u32) -> Option<usize>
    ensures { WroteNode out.old at (head_words 14 count) result out.new }
{
    write_head(out, at, 14, count)
}

// Names the node at a place, and answers whether there is one.
pub fn set_name(out: &mut [u32], at: usize, name: u32) -> bool
    ensures { Renamed out.old at name result out.new }
{
    if fits(out.len(), at, NODE_WORDS) {
        out[at] = name;
        true
    } else {
        false
    }
}
