// The sections of a sheet: each its count, then so many records.
#![tactic(auto, using(crate::proofs::Series::sections))]

ghost use Rattle.std.specs.Prelude.{length};
ghost use Rattle.definition.specs.Program.{lines_text};
ghost use Rattle.laws.specs.Puts.{Puts};
ghost use Rattle.text.specs.Forms.{section_form, sheet_form};
ghost use Rattle.text.specs.Printed.{SheetRoom};

use crate::line::Line;
use crate::part::{Part, Places, put_times};
use crate::record::Record;

const COUNT: Line = Line { before: 0 };

// `place` is that of the number of nodes in the head of each record.
#[derive(Clone, Copy)]
struct Section {
    place: usize,
}

impl Part for Section {
    ghost form = { λ s. section_form s.place };

    fn put(self, text: &mut [u8], at: Places, words: &[u32]) -> Places {
        let many = words[at.word];
        let behind = COUNT.put(text, at, words);
        let record = Record { place: self.place };
        put_times(record, many, text, behind, words)
    }
}

// The sheet that stands at the front of the words, from the front of the text on.
pub fn put_sheet(text: &mut [u8], words: &[u32]) -> usize
    requires { SheetRoom words.now (length text.old) }
    ensures { Puts (lines_text (sheet_form.lines words.now)) text.old 0 result text.new }
{
    let first = Places { word: 0, byte: 0 };
    let types = Section { place: 2 }.put(text, first, words);
    let variables = Section { place: 1 }.put(text, types, words);
    let completed = Section { place: 2 }.put(text, variables, words);
    completed.byte
}
