// Where the sections of a file stand.
ghost use Rattle.std.specs.Prelude.{◌≡◌, ◌+◌, ◌^◌, ◌≤◌, get_or};
ghost use Rattle.definition.specs.Layout.{behind};
ghost use Rattle.records.specs.Starts.{StartsOf};

use definition::layout::{SECTIONS, record_words};

// The word at a place, 0 past the end.
pub fn word_at(words: &[u32], at: usize) -> u32
    ensures { result ≡ get_or words.now at 0 }
{
    words.get(at).copied().unwrap_or(0)
}

// Where a section ends whose count stands at `at`.
pub fn section_end(file: &[u32], section: usize, at: usize) -> usize
    requires { at ≤ 2 ^ 40 }
    ensures is { result ≡ behind file.now section at }
    ensures near { result ≤ at + 2 ^ 36 }
{
    at + 1 + (word_at(file, at) as usize) * record_words(section)
}

// Where the count of each section stands, and behind them where the last section ends.
#[tactic(auto, using(crate::proofs::Starting::starting))]
pub fn find_sections(file: &[u32]) -> [usize; 15]
    ensures { StartsOf file.now result }
{
    let mut starts = [0usize; 15];
    for s in 0..SECTIONS {
        starts[s + 1] = section_end(file, s, starts[s]);
    }
    starts
}
