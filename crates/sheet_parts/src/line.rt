// One line of a sheet, and putting it into out.
#![tactic(auto, using(crate::proofs::Lining::lining))]

ghost use Rattle.std.specs.Prelude.{◌≡◌, ◌+◌, ◌*◌, ◌≤◌, length};
ghost use Rattle.sheet_parts.specs.Line.{LineFits, value_in, line_in, empty_line, remembered_line, built_line};
ghost use Rattle.laws.specs.Puts.{Puts};

use crate::put::{put_word, put_words};
use build::built::Unbuilt;
use definition::layout::NODE_WORDS;
use lines::look::{Absent, Tree};

// `first` is a type's rank, or says whether a completed initializer is left; a variable's line has no such word. `state` is that of a value, or the kind of
// a completed initializer. The nodes lie at a place of a store or of a room.
#[derive(Clone, Copy)]
pub struct Line {
    pub first: u32,
    pub state: u32,
    pub nodes: usize,
    pub at: usize,
}

pub fn empty_line(first: u32, state: u32) -> Line
    ensures { result ≡ empty_line first state }
{
    Line {
        first,
        state,
        nodes: 0,
        at: 0,
    }
}

// What is remembered of a type.
pub fn remembered_line(rank: u32, remembered: Result<Tree, Absent>) -> Line
    ensures { result ≡ remembered_line rank remembered }
{
    match remembered {
        Ok(tree) => Line {
            first: rank,
            state: 0,
            nodes: tree.nodes,
            at: tree.at,
        },
        Err(absent) => empty_line(rank, absent.state()),
    }
}

// What was built at the front of a room.
pub fn built_line(built: Result<usize, Unbuilt>) -> Line
    ensures { result ≡ built_line built }
{
    match built {
        Ok(e) => Line {
            first: 0,
            state: 0,
            nodes: e / NODE_WORDS,
            at: 0,
        },
        Err(unbuilt) => empty_line(0, Absent::from(unbuilt).state()),
    }
}

// A line's words, of which so many stand before its nodes.
pub fn words_of(line: Line, head: usize) -> usize
    requires { (line.nodes ≤ 2048) × (head ≤ 3) }
    ensures is { result ≡ head + line.nodes * 6 }
    ensures most { result ≤ 12291 }
{
    head + line.nodes * NODE_WORDS
}

// The words of a line behind its first.
pub fn put_value(out: &mut [u32], at: usize, line: Line, from: &[u32]) -> usize
    requires { LineFits line (length from.now) at (length out.old) }
    ensures { Puts (value_in line from.now) out.old at result out.new }
{
    let counted = put_word(out, at, line.state);
    let behind = put_word(out, counted, line.nodes as u32);
    let end = line.at + line.nodes * NODE_WORDS;
    put_words(out, behind, &from[line.at..end])
}

pub fn put_line(out: &mut [u32], at: usize, line: Line, from: &[u32]) -> usize
    requires { LineFits line (length from.now) (at + 1) (length out.old) }
    ensures { Puts (line_in line from.now) out.old at result out.new }
{
    let behind = put_word(out, at, line.first);
    put_value(out, behind, line, from)
}
