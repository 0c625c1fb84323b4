// Replays stored files with the Rust's answers (vectors/trees): a file after its count; then, after theirs, the words of its answers as vectors/README.md has them: each type's tree, each
// variable's, and each completed initializer; until the input ends.
// Prints how many were right, and for each that was not the numbers of its file, its section (0 types, 1 variables, 2 completed initializers) and itself.
#![tactic(auto)]

use acceptance::work::{line_words, room_words};
use definition::answers::{Refusal, Slot};
use definition::layout::{NODE_WORDS, TYPES, VARIABLES};
use records::source::Source;
use resolver::completed::completed;
use resolver::trees::{type_tree, variable_tree};
use std::io;
use vector_io::answers::{LENT, MOST_LINES, MOST_ROOM, holds, judged, print_replayed};
use vector_io::{next_word, read_counted, read_word};

// More words than any stored file has, and than any of its answers.
const MOST_WORDS: usize = 4096;
// More files than are stored.
const MOST_FILES: u32 = 1000;

// The slice holds so many nodes, which are those of the input.
fn same_nodes(rt: &impl Input, out: &[u32], nodes: u32) -> io::Result<bool> {
    holds(rt, out, (nodes as usize) * NODE_WORDS, LENT)
}

fn is_tree(answer: Result<Option<usize>, Refusal>, state: u32, nodes: u32) -> bool {
    match answer {
        Ok(Some(n)) => (state == 0) & (n == nodes as usize),
        Ok(None) => (state == 1) & (nodes == 0),
        Err(_) => false,
    }
}

fn is_completed(answer: Result<Option<Slot>, Refusal>, state: u32, kind: u32, nodes: u32) -> bool {
    match answer {
        Ok(Some(slot)) => { (state == 0) & (slot.kind == kind) & (slot.nodes == nodes as usize) }
        Ok(None) => (state == 1) & (kind == 0) & (nodes == 0),
        Err(_) => false,
    }
}

fn same_tree(
    rt: &impl Input,
    answer: Result<Option<usize>, Refusal>,
    out: &[u32],
) -> io::Result<bool> {
    let state = next_word(rt)?;
    let nodes = next_word(rt)?;
    Ok(is_tree(answer, state, nodes) & same_nodes(rt, out, nodes)?)
}

fn same_completed(
    rt: &impl Input,
    answer: Result<Option<Slot>, Refusal>,
    out: &[u32],
) -> io::Result<bool> {
    let state = next_word(rt)?;
    let kind = next_word(rt)?;
    let nodes = next_word(rt)?;
    Ok(is_completed(answer, state, kind, nodes) & same_nodes(rt, out, nodes)?)
}

// Each number of a section is asked for in a slice of fresh words, and its answer told apart by the numbers of file, section and itself.
fn replay_section<F: FnMut(u32, &mut [u32]) -> io::Result<bool>>(
    rt: &impl Print,
    k: u32,
    section: u32,
    many: u32,
    out: &mut [u32],
    mut is_right: F,
) -> io::Result<u64>
    requires { F.IsAlwaysCallable is_right }
{
    let mut sum: u64 = 0;
    for number in 0..many {
        out.fill(LENT);
        let right = is_right(number, out)?;
        let place = format_args!("{k}\n{section}\n{number}");
        sum = sum.wrapping_add(judged(rt, right, place)?);
    }
    Ok(sum)
}

fn replay_answers(
    rt: &(impl Input + Print),
    file: &[u32],
    k: u32,
    out: &mut [u32],
    lines: &mut [u32],
    room: &mut [u32],
) -> io::Result<u64> {
    let source = Source::new(file);
    let types = source.count(TYPES);
    let variables = source.count(VARIABLES);
    let first = replay_section(rt, k, 0, types, out, |number, out| {
        same_tree(rt, type_tree(file, number, out, lines, room), out)
    })?;
    let second = replay_section(rt, k, 1, variables, out, |number, out| {
        same_tree(rt, variable_tree(file, number, out, lines, room), out)
    })?;
    let third = replay_section(rt, k, 2, variables, out, |number, out| {
        same_completed(rt, completed(file, number, out, lines, room), out)
    })?;
    Ok(first.wrapping_add(second).wrapping_add(third))
}

// Just as many work words as the file wants.
fn replay_lent(
    rt: &(impl Input + Print),
    file: &[u32],
    k: u32,
    out: &mut [u32],
    lines: &mut [u32],
    room: &mut [u32],
) -> io::Result<u64> {
    let Some(lines) = lines.get_mut(..line_words(file).unwrap_or(0)) else {
        return Ok(0);
    };
    let Some(room) = room.get_mut(..room_words(file).unwrap_or(0)) else {
        return Ok(0);
    };
    replay_answers(rt, file, k, out, lines, room)
}

fn replay_file(
    rt: &(impl Input + Print),
    k: u32,
    words: &mut [u32],
    out: &mut [u32],
    lines: &mut [u32],
    room: &mut [u32],
) -> io::Result<Option<u64>> {
    let Some(file) = read_counted(rt, words)? else {
        return Ok(None);
    };
    let Some(_) = read_word(rt)? else {
        return Ok(None);
    };
    Ok(Some(replay_lent(rt, file, k, out, lines, room)?))
}

fn replay_all(
    rt: &(impl Input + Print),
    words: &mut [u32],
    out: &mut [u32],
    lines: &mut [u32],
    room: &mut [u32],
) -> io::Result<()> {
    print_replayed(
        rt,
        MOST_FILES,
        |k| replay_file(rt, k, words, out, lines, room),
    )
}

fn main(rt: HostRuntime) -> io::Result<()> {
    let mut words = [0u32; MOST_WORDS];
    let mut out = [0u32; MOST_WORDS];
    let mut lines = [0u32; MOST_LINES];
    let mut room = [0u32; MOST_ROOM];
    replay_all(&rt, &mut words, &mut out, &mut lines, &mut room)
}
