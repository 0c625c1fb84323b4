// Words put into out, each behind those before.
#![tactic(auto, using(crate::proofs::Putting::puts))]

ghost use Rattle.std.specs.Prelude.{[], ◌∷◌, ◌+◌, ◌≤◌, ◌<◌, length};
ghost use Rattle.laws.specs.Puts.{Puts};

pub fn put_word(out: &mut [u32], at: usize, word: u32) -> usize
    requires { at < length out.old }
    ensures { Puts (word ∷ []) out.old at result out.new }
{
    out[at] = word;
    at + 1
}

// All words of another slice.
pub fn put_words(out: &mut [u32], at: usize, words: &[u32]) -> usize
    requires { at + length words.now ≤ length out.old }
    ensures { Puts words.now out.old at result out.new }
{
    let end = at + words.len();
    out[at..end].copy_from_slice(words);
    end
}
