// Work words that are lent for an answer, and end as 0.
ghost use Rattle.std.specs.Prelude.{◌≡◌};
ghost use Rattle.definition.specs.Answers.{cleared};
ghost use Rattle.resolver.specs.Lent.{Answered};

use lines::clear::clear;

// The answer, with the words of out that it leaves.
pub fn with_lent<T, R, F: FnOnce(&mut [T], &mut [u32], &mut [u32]) -> R>(
    out: &mut [T],
    lines: &mut [u32],
    room: &mut [u32],
    answer: F,
) -> R
    requires { F.IsAlwaysCallable answer }
    ensures answer { Answered (F.post answer) out.old lines.old room.old result out.new }
    ensures lines { lines.new ≡ cleared lines.old }
    ensures room { room.new ≡ cleared room.old }
{
    let result = answer(out, lines, room);
    clear(lines);
    clear(room);
    result
}
