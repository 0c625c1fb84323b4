// What a replay compares and counts.
ghost use Rattle.std.specs.Prelude.{◌≡◌, ◌≤◌, true, false, length, drop, IfOk, Ok};
ghost use Rattle.std.specs.List.{list_all};
ghost use Rattle.vector_io.specs.Replay.{Sums, PrintsSum};

use crate::{Word, next_word};
use std::fmt::Display;
use std::io;

// What the words of an answer's slice are before a call.
pub const LENT: u32 = 0xA5A5_A5A5;
// Lines of 20 types, and room of 30 levels: more than any stored file wants.
pub const MOST_LINES: usize = 245820;

pub const MOST_ROOM: usize = 737280;

// Whether the next words of the input, all read, are these.
fn same_words<T: Word>(rt: &impl Input, words: &[T]) -> io::Result<bool>
    ensures { length words.now ≡ 0 → result ≡ Ok true }
{
    let mut same = true;
    for word in words {
        same &= T::of(next_word(rt)?) == *word;
    }
    Ok(same)
}

fn skip_words(rt: &impl Input, many: usize) -> io::Result<()> {
    for _ in 0..many {
        next_word(rt)?;
    }
    Ok(())
}

// Each word is as it was lent.
pub fn is_lent<T: Word>(words: &[T], lent: T) -> bool
    ensures { result ≡ list_all (λ word. T.eq word lent) words.now }
{
    words.iter().all(|word| *word == lent)
}

// So many words of the input, all read, are the front of `out`, and each behind it is `lent`.
pub fn holds<T: Word>(rt: &impl Input, out: &[T], count: usize, lent: T) -> io::Result<bool>
    ensures room { IfOk result (λ same. same ≡ true → count ≤ length out.now) }
    ensures rest { IfOk result (λ same. same ≡ true → list_all (λ word. T.eq word lent) (drop count out.now) ≡ true) }
    ensures none { count ≡ 0 → result ≡ Ok (list_all (λ word. T.eq word lent) out.now) }
{
    let Some((front, rest)) = out.split_at_checked(count) else {
        skip_words(rt, count)?;
        return Ok(false);
    };
    let same = same_words(rt, front)?;
    Ok(same & is_lent(rest, lent))
}

// 1 for a right answer; where a wrong one stands is printed.
pub fn judged(rt: &impl Print, right: bool, place: impl Display + Drop) -> io::Result<u64>
    ensures right { right ≡ true → result ≡ Ok 1 }
    ensures wrong { right ≡ false → IfOk result (λ n. n ≡ 0) }
{
    if right {
        return Ok(1);
    }
    rt.println(place)?;
    Ok(0)
}

// The sum of what steps give, at most so many, until one finds nothing more.
pub fn replay<F: FnMut(u32) -> io::Result<Option<u64>>>(most: u32, mut step: F) -> io::Result<u64>
    requires { F.IsAlwaysCallable step }
    ensures { Sums (λ f k answer next. F.step f k answer next) most 0 step 0 result }
{
    let mut sum: u64 = 0;
    for k in 0..most {
        let Some(n) = step(k)? else {
            return Ok(sum);
        };
        sum = sum.wrapping_add(n);
    }
    Ok(sum)
}

// The same sum, printed.
pub fn print_replayed<F: FnMut(u32) -> io::Result<Option<u64>>>(
    rt: &impl Print,
    most: u32,
    step: F,
) -> io::Result<()>
    requires { F.IsAlwaysCallable step }
    ensures { PrintsSum (λ f k answer next. F.step f k answer next) most step result }
{
    rt.println(replay(most, step)?)
}
