// Replays stored files with their verdicts (vectors/refusals): a count, that many words, and the refusal that document 01 gives them, until the input ends.
// Prints how many were right, and the number and the answer of each that was not.
#![tactic(auto)]

use acceptance::accept::accept;
use codes::pass_code;
use std::io;
use vector_io::answers::{judged, print_replayed};
use vector_io::{read_counted, read_word};

// More words than any stored file has.
const MOST_WORDS: usize = 66000;
// More files than are stored.
const MOST_FILES: u32 = 100000;

fn replay_file(rt: &(impl Input + Print), k: u32, words: &mut [u32]) -> io::Result<Option<u64>> {
    let Some(file) = read_counted(rt, words)? else {
        return Ok(None);
    };
    let Some(expected) = read_word(rt)? else {
        return Ok(None);
    };
    let answer = pass_code(accept(file));
    let place = format_args!("{k}\n{answer}");
    Ok(Some(judged(rt, answer == expected, place)?))
}

fn replay_all(rt: &(impl Input + Print), words: &mut [u32]) -> io::Result<()> {
    print_replayed(rt, MOST_FILES, |k| replay_file(rt, k, words))
}

fn main(rt: HostRuntime) -> io::Result<()> {
    let mut words = [0u32; MOST_WORDS];
    replay_all(&rt, &mut words)
}
