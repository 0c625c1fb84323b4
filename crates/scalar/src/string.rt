// The string leaf (`string_value` and `max_length` of resolver.rs): a literal's characters are a run of the Characters section, cut to what the place holds.
#![tactic(auto, using(crate::proofs::string::Laws::laws))]

ghost use Rattle.std.specs.Prelude.{◌≡◌, min, take, drop};
ghost use Rattle.definition.specs.Ask.{result_of};
ghost use Rattle.scalar.specs.String.{max_length_by, cut_by, string_of, Countable};

use definition::records::Constant;

// The most characters that a string holds, or none for a length that no string may have. Length is 1 plus the declared one, or 0, where the setting decides.
pub fn max_length(length: u32, setting: u32) -> Option<u32>
    ensures { result_of result ≡ max_length_by setting length }
{
    let Some(declared) = length.checked_sub(1) else {
        return Some(setting);
    };
    (declared <= 65535).then_some(declared)
}

// A run as a constant with its last word: without characters it begins at 0.
pub fn string_constant(first: u32, count: u32, last: u32) -> Constant
    ensures { result ≡ string_of first count last }
{
    Constant {
        kind: 8,
        sign: 0,
        low: if count == 0 { 0 } else { first },
        high: count,
        width: last,
    }
}

// A literal's run in a place of some length and width. The last word has the width and, doubled, the characters that are cut.
pub fn cut_string(length: u32, width: u32, first: u32, count: u32, setting: u32) -> Option<Constant>
    requires { Countable width count }
    ensures { result_of result ≡ cut_by setting length width first count }
{
    let most = max_length(length, setting)?;
    let held = count.min(most);
    Some(string_constant(first, held, width + 2 * (count - held)))
}

// The characters themselves, as a part of the section. Of a run that leaves the section this is what lies in it.
pub fn string_value(characters: &[u32], first: u32, count: u32, most: u32) -> &[u32]
    ensures { result.now ≡ take (min count most) (drop first characters.now) }
{
    let from = first as usize;
    let to = from + count.min(most) as usize;
    if to <= characters.len() {
        return &characters[from..to];
    }
    if from <= characters.len() {
        return &characters[from..];
    }
    &characters[..0]
}
