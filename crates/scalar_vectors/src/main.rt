// Replays stored conversions (vectors/scalars): a file after its count; then, after their number, pairs of a shape and a constant of it, each with 0 for a value or 1 for none, and with what
// the first six words of the lent slice hold afterwards; until the input ends.
// Prints how many were right, and the shape and the constant of each that was not.
#![tactic(auto)]

use start_values::convert::wirkesu_convert;
use std::io;
use vector_io::answers::{LENT, judged, print_replayed, replay};
use vector_io::{read_counted, read_word, read_words};

// More words than any stored file has.
const MOST_WORDS: usize = 70000;
// More files than are stored.
const MOST_FILES: u32 = 1000;

// What the library answers for a stored state: 1 node for a value, 0 for none.
fn answer_for(state: u32) -> u64 {
    u64::from(state == 0)
}

// The first six words of the lent slice are the stored ones, and the word behind them is what it was.
fn is_right(file: &[u32], pair: &[u32; 9]) -> bool {
    let mut out = [LENT; 7];
    let answer = wirkesu_convert(file, pair[0], pair[1], &mut out);
    (answer == answer_for(pair[2])) & (out[..6] == pair[3..]) & (out[6] == LENT)
}

fn replay_pair(rt: &(impl Input + Print), file: &[u32]) -> io::Result<Option<u64>> {
    let mut pair = [0u32; 9];
    if !read_words(rt, &mut pair)? {
        return Ok(None);
    }
    let place = format_args!("{}\n{}", pair[0], pair[1]);
    Ok(Some(judged(rt, is_right(file, &pair), place)?))
}

fn replay_file(rt: &(impl Input + Print), words: &mut [u32]) -> io::Result<Option<u64>> {
    let Some(file) = read_counted(rt, words)? else {
        return Ok(None);
    };
    let Some(pairs) = read_word(rt)? else {
        return Ok(None);
    };
    Ok(Some(replay(pairs, |_| replay_pair(rt, file))?))
}

fn replay_all(rt: &(impl Input + Print), words: &mut [u32]) -> io::Result<()> {
    print_replayed(rt, MOST_FILES, |_| replay_file(rt, words))
}

fn main(rt: HostRuntime) -> io::Result<()> {
    let mut words = [0u32; MOST_WORDS];
    replay_all(&rt, &mut words)
}
