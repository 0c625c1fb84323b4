// Parts of a sheet, each printed where the words and the text before it end.
#![tactic(auto, using(crate::proofs::Series::repeats))]

ghost use Rattle.std.specs.Prelude.{length, replicate};
ghost use Rattle.text.specs.Forms.{Form, series};
ghost use Rattle.text.specs.Printed.{Printable, Printed};

// Where the next word is read, and where its text is put.
#[derive(Clone, Copy)]
pub struct Places {
    pub word: usize,
    pub byte: usize,
}

pub trait Part: Copy {
    ghost form: { Self → Form };

    fn put(self, text: &mut [u8], at: Places, words: &[u32]) -> Places
        requires { Printable (form self) words.now (length text.old) at }
        ensures { Printed (form self) words.now text.old at result text.new };
}

// The same part so many times, each behind the one before.
pub fn put_times<P: Part>(part: P, many: u32, text: &mut [u8], at: Places, words: &[u32]) -> Places
    requires { Printable (series (replicate many (P.form part))) words.now (length text.old) at }
    ensures { Printed (series (replicate many (P.form part))) words.now text.old at result text.new }
{
    let mut ends = at;
    for _ in 0..many {
        ends = part.put(text, ends, words);
    }
    ends
}
