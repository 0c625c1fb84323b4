// The words of a file, by section, record and place.
ghost use Rattle.std.specs.Prelude.{◌≡◌, ◌+◌, ◌^◌, ◌<◌, ◌≤◌};
ghost use Rattle.definition.specs.Layout as Layout;
ghost use Rattle.definition.specs.Layout.{count_at};
ghost use Rattle.records.specs.Starts.{StartsBehind};
ghost use Rattle.records.specs.Words.{words_from};

use crate::words::{find_sections, section_end, word_at};
use definition::layout::{CHARACTERS, record_words};
use std::marker::Model;

// A file and where each of its sections behind the first stands; the first begins at 0. With no more than these a `File` has 128 bytes, so that an archive
// for C moves it without a function of the C library. Contracts see the file's words.
#[derive(Drop)]
pub struct Source<'a> {
    words: &'a [u32],
    starts: [usize; 13],
}

impl<'a> Model for Source<'a> {
    ghost use Rattle.std.specs.Prelude.{List, ℕ};
    ghost use Rattle.records.specs.Starts.{StartsBehind};

    ghost Value = { List ℕ };

    ghost view = { λ s. s.words.now };

    ghost invariant = { λ s. StartsBehind s.words.now s.starts };
}

// Where the sections behind the first stand.
fn starts_behind(words: &[u32]) -> [usize; 13]
    ensures { StartsBehind words.now result }
{
    let starts = find_sections(words);
    std::array::from_fn(|k| starts[k + 1])
}

impl<'a> Source<'a> {
    pub fn new(words: &'a [u32]) -> Source<'a>
        ensures { result ≡ words.now }
    {
        Source {
            words,
            starts: starts_behind(words),
        }
    }

    // All words of the file.
    pub fn words(&self) -> &'a [u32]
        ensures { result.now ≡ self.now }
    {
        self.words
    }

    // Where the last section ends.
    #[tactic(auto, using(crate::proofs::Starting::reading))]
    pub fn end(&self) -> usize
        ensures { result ≡ count_at self.now 14 }
    {
        section_end(self.words, CHARACTERS, self.start(CHARACTERS))
    }

    // Where the count of a section stands; its records stand behind it.
    #[tactic(auto, using(crate::proofs::Starting::reading))]
    pub fn start(&self, section: usize) -> usize
        requires { section < 14 }
        ensures is { result ≡ count_at self.now section }
        ensures near { result ≤ 2 ^ 40 }
    {
        if section == 0 {
            return 0;
        }
        self.starts[section - 1]
    }

    // How many records a section has.
    #[tactic(auto, using(crate::proofs::Starting::reading))]
    pub fn count(&self, section: usize) -> u32
        requires { section < 14 }
        ensures { result ≡ Layout.count self.now section }
    {
        word_at(self.words, self.start(section))
    }

    // Word `place` of record `first + j`: in 64 bits, so that a run need not be inside its section.
    pub fn run_word(&self, section: usize, first: u32, j: u32, place: usize) -> u32
        requires { (section < 14) × (place < 16) }
        ensures { result ≡ Layout.word self.now section (first + j) place }
    {
        let at = self.start(section);
        let number = (first as usize) + (j as usize);
        word_at(self.words, at + 1 + number * record_words(section) + place)
    }

    // Word `place` of a record.
    pub fn word(&self, section: usize, number: u32, place: usize) -> u32
        requires { (section < 14) × (place < 16) }
        ensures { result ≡ Layout.word self.now section number place }
    {
        self.run_word(section, number, 0, place)
    }

    // The words of a record from `place` on, so many as the caller takes.
    pub fn words_from<const N: usize>(&self, section: usize, number: u32, place: usize) -> [u32; N]
        requires { (section < 14) × (place + N ≤ 16) }
        ensures { result ≡ words_from self.now section number place N }
    {
        std::array::from_fn(|k| self.word(section, number, place + k))
    }
}
