// Runs the stored cases over the functions of `tree` and prints a line for each. What the lines must be comes from model.py, which also wrote the cases.
#![tactic(auto)]

mod answer;
mod cases;
mod text;

use std::io;
use vector_io::read_full;

const HEAD_WORDS: usize = 10;

// In place of a number of words: those of the case before.
const SAME: u32 = 4294967295;

// The cases, one behind the other: ten numbers, the second of which says how many words the slice has, and those words.
fn run_all(rt: &impl Print, words: &[u32], work: &mut [u32]) -> io::Result<()> {
    let mut rest = words;
    let mut kept = &words[..0];
    while let Some((head, behind)) = rest.split_first_chunk::<HEAD_WORDS>() {
        rest = behind;
        if head[1] != SAME {
            let Some((given, others)) = behind.split_at_checked(head[1] as usize) else {
                return Ok(());
            };
            kept = given;
            rest = others;
        }
        if let Some(out) = work.get_mut(..kept.len()) {
            cases::run(rt, head, kept, out)?;
        }
    }
    Ok(())
}

fn run(
    rt: &(impl Input + Print),
    bytes: &mut [u8],
    words: &mut [u32],
    work: &mut [u32],
) -> io::Result<()> {
    let n = read_full(&mut rt.reader(), bytes)?;
    let count = text::numbers(&bytes[..n], words);
    run_all(rt, &words[..count], work)
}

fn main(rt: HostRuntime) -> io::Result<()> {
    let mut bytes = [0u8; 1048576];
    let mut words = [0u32; 262144];
    let mut work = [0u32; 65536];
    run(&rt, &mut bytes, &mut words, &mut work)
}
