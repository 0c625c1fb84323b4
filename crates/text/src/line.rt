// A line: so many words, one space between two, and a line feed.
#![tactic(auto, using(crate::proofs::Lining::lining))]

ghost use Rattle.std.specs.Prelude.{[], ◌∷◌, ◌++◌, ◌+◌, ◌<◌, length};
ghost use Rattle.definition.specs.Program.{decimal};
ghost use Rattle.laws.specs.Puts.{Puts};
ghost use Rattle.text.specs.Forms.{line_form};

use crate::number::put_number;
use crate::part::{Part, Places};
use crate::put::put_byte;

// A number and the byte behind it.
pub fn put_word(text: &mut [u8], at: usize, n: u32, behind: u8) -> usize
    requires { at + length (decimal n) < length text.old }
    ensures { Puts (decimal n ++ (behind ∷ [])) text.old at result text.new }
{
    let end = put_number(text, at, n);
    put_byte(text, end, behind)
}

// So many words, and one more as the last.
#[derive(Clone, Copy)]
pub struct Line {
    pub before: usize,
}

impl Part for Line {
    ghost form = { λ l. line_form (l.before + 1) };

    fn put(self, text: &mut [u8], at: Places, words: &[u32]) -> Places {
        let last = at.word + self.before;
        let mut end = at.byte;
        for word in &words[at.word..last] {
            end = put_word(text, end, *word, b' ');
        }
        end = put_word(text, end, words[last], b'\n');
        Places {
            word: last + 1,
            byte: end,
        }
    }
}
