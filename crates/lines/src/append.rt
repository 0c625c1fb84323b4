// Lines appended to a store.
#![tactic(auto, using(crate::proofs::Appending::appends))]

ghost use Rattle.std.specs.Prelude.{◌≡◌, [], ◌∷◌, ◌+◌, ◌*◌, ◌/◌, ◌≤◌, ◌<◌, eqb, leb, length, get_or, set};
ghost use Rattle.std.proofs.Math.Seq.{paste};
ghost use Rattle.definition.specs.Answers.{cleared};
ghost use Rattle.lines.specs.Append.{room, HeadRoom, AppendsState, AppendsTree};
ghost use Rattle.lines.specs.Lines.{Lends, Headed, ends};
ghost use Rattle.lines.specs.Look.{state_word};

use crate::clear::clear;
use crate::copy::copy_nodes;
use crate::look::{Absent, HEAD_WORDS};
use definition::layout::NODE_WORDS;
use tree::words::{fits, nodes_fit};

// No store has more words: a place in it fits a word of the index.
pub const MOST_WORDS: usize = 268435456;

// The lines of types, one behind the other: they fill the store up to `end`, and a type's word of the index leads to its line.
#[derive(Drop)]
pub struct Lines<'a> {
    pub index: &'a mut [u32],
    pub store: &'a mut [u32],
    pub end: usize,
}

// Whether a line of so many nodes lies within a length.
fn line_fits(length: usize, end: usize, nodes: usize) -> bool
    ensures { result ≡ leb (end + 3 + nodes * 6) length }
{
    fits(length, end, HEAD_WORDS) && nodes_fit(length, end + HEAD_WORDS, nodes)
}

// Whether a store has room for a line of so many nodes.
fn has_room(length: usize, end: usize, nodes: usize) -> bool
    ensures { result ≡ room length end nodes }
{
    line_fits(length.min(MOST_WORDS), end, nodes)
}

// A line's head: rank 0, state and count.
fn write_head(store: &mut [u32], at: usize, state: u32, count: u32)
    requires { at + 3 ≤ length store.old }
    ensures { store.new ≡ paste store.old at (0 ∷ state ∷ count ∷ []) 3 }
{
    store[at..at + HEAD_WORDS].copy_from_slice(&[0, state, count]);
}

// A type's word of the index. A number past the index has none.
fn mark(index: &mut [u32], t: u32, word: u32)
    ensures { index.new ≡ set index.old t word }
{
    let i = t as usize;
    if i < index.len() {
        index[i] = word;
    }
}

impl Lines<'_> {
    // Whether nothing is known of a type.
    pub fn is_unknown(&self, t: u32) -> bool
        requires { t < length self.now.index.now }
        ensures { result ≡ eqb (get_or self.now.index.now t 0) 0 }
    {
        self.index[t as usize] == 0
    }

    // Nothing is known of any type.
    pub fn clear(&mut self)
        ensures same { Lends self.old self.new }
        ensures index { self.new.index.now ≡ cleared self.old.index.now }
        ensures store { self.new.store.now ≡ self.old.store.now }
        ensures end { self.new.end ≡ 0 }
    {
        clear(self.index);
        self.end = 0;
    }

    // A type is in progress.
    pub fn begin(&mut self, t: u32)
        ensures same { Lends self.old self.new }
        ensures index { self.new.index.now ≡ set self.old.index.now t 1 }
        ensures store { self.new.store.now ≡ self.old.store.now }
        ensures end { self.new.end ≡ self.old.end }
    {
        mark(self.index, t, 1);
    }

    // The head of a type's line, to which its word of the index leads.
    fn put_head(&mut self, t: u32, state: u32, count: u32)
        requires { HeadRoom (length self.old.store.now) self.old.end }
        ensures same { Lends self.old self.new }
        ensures headed { Headed state count t self.old self.new }
    {
        let end = self.end;
        write_head(self.store, end, state, count);
        mark(self.index, t, end as u32 + 2);
    }

    // A line of why a type has no tree. Nothing is written where the store has no room for it.
    pub fn remember_absent(&mut self, t: u32, why: Absent) -> Option<()>
        ensures same { Lends self.old self.new }
        ensures appends { AppendsState (state_word why) self.old.index.now self.old.store.now self.old.end t (ends result self.new.end) self.new.index.now self.new.store.now }
        ensures end { result ≡ None → self.new.end ≡ self.old.end }
    {
        if !has_room(self.store.len(), self.end, 0) {
            return None;
        }
        self.put_head(t, why.state(), 0);
        self.end += HEAD_WORDS;
        Some(())
    }

    // A line of a type's tree, which is the nodes of another slice.
    pub fn remember_tree(&mut self, t: u32, nodes: &[u32]) -> Option<()>
        ensures same { Lends self.old self.new }
        ensures appends { AppendsTree nodes.now 0 (length nodes.now / 6) self.old.index.now self.old.store.now self.old.end t (ends result self.new.end) self.new.index.now self.new.store.now }
        ensures end { result ≡ None → self.new.end ≡ self.old.end }
    {
        let count = nodes.len() / NODE_WORDS;
        if !has_room(self.store.len(), self.end, count) {
            return None;
        }
        let stop = copy_nodes(nodes, 0, count, self.store, self.end + HEAD_WORDS)?;
        self.put_head(t, 0, count as u32);
        self.end = stop;
        Some(())
    }
}
