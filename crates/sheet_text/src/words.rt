// A file's words from its bytes: four bytes a word, the low one first.
#![tactic(auto, using(crate::proofs::Reading::fills))]

ghost use Rattle.std.specs.Prelude.{length};
ghost use Rattle.definition.specs.Program.{words_from};
ghost use Rattle.laws.specs.Puts.{Puts};
ghost use Rattle.sheet_text.specs.Texts.{WordRoom};

// All words of the bytes, at the front of `words`, and how many they are.
pub fn read_words(bytes: &[u8], words: &mut [u32]) -> usize
    requires { WordRoom bytes.now (length words.old) }
    ensures { Puts (words_from bytes.now) words.old 0 result words.new }
{
    let (fours, _) = bytes.as_chunks::<4>();
    for (i, four) in fours.iter().enumerate() {
        words[i] = u32::from_le_bytes(*four);
    }
    fours.len()
}
