// What is remembered of a type.
#![tactic(auto, using(crate::proofs::Looking::reads))]

ghost use Rattle.std.specs.Prelude.{◌≡◌, ◌+◌, ◌≤◌, length, get_or};
ghost use Rattle.lines.specs.Look.{state_of, state_word, line_of, word_of, remembered_of};

use tree::words::fits;

// Rank, state and count.
pub const HEAD_WORDS: usize = 3;

// A tree with so many nodes lies at a place of the store.
#[derive(Clone, Copy)]
pub struct Tree {
    pub at: usize,
    pub nodes: usize,
}

// Why no tree is remembered of a type: nothing is known of it, or it has none, or one too large.
#[derive(Clone, Copy)]
pub enum Absent {
    Unknown,
    None,
    TooLarge,
}

impl Absent {
    // The state of a line without a tree.
    pub fn state(self) -> u32
        ensures { result ≡ state_word self }
    {
        match self {
            Absent::Unknown => 1,
            Absent::None => 1,
            Absent::TooLarge => 2,
        }
    }
}

// A line's state, with its count and the place behind its head. A state that no line has reads as none.
fn state(state: u32, at: usize, count: u32) -> Result<Tree, Absent>
    ensures { result ≡ state_of state at count }
{
    match state {
        0 => Ok(Tree {
            at,
            nodes: count as usize,
        }),
        2 => Err(Absent::TooLarge),
        _ => Err(Absent::None),
    }
}

fn head(store: &[u32], at: usize) -> Result<Tree, Absent>
    requires { at + 3 ≤ length store.now }
    ensures { result ≡ state_of (get_or store.now (at + 1) 0) (at + 3) (get_or store.now (at + 2) 0) }
{
    state(store[at + 1], at + HEAD_WORDS, store[at + 2])
}

// The line at a place. None where the store ends before its head does.
pub fn line(store: &[u32], at: usize) -> Result<Tree, Absent>
    ensures { result ≡ line_of store.now at }
{
    if fits(store.len(), at, HEAD_WORDS) {
        head(store, at)
    } else {
        Err(Absent::None)
    }
}

// What a word of the index says.
fn entry(store: &[u32], word: u32) -> Result<Tree, Absent>
    ensures { result ≡ word_of store.now word }
{
    match word {
        0 => Err(Absent::Unknown),
        1 => Err(Absent::None),
        _ => line(store, word as usize - 2),
    }
}

// What is remembered of a type. One in progress has none, and so has a number past the index.
pub fn look_up(index: &[u32], store: &[u32], t: u32) -> Result<Tree, Absent>
    ensures { result ≡ remembered_of index.now store.now t }
{
    let word = index.get(t as usize).ok_or(Absent::None)?;
    entry(store, *word)
}
