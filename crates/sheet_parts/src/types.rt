// The section of types, counted and written.
#![tactic(auto, using(crate::proofs::Sections::writing))]

ghost use Rattle.std.specs.Prelude.{length};
ghost use Rattle.definition.specs.Layout as Layout;
ghost use Rattle.definition.specs.Uses.{rank_at};
ghost use Rattle.laws.specs.Puts.{Puts};
ghost use Rattle.sheet_parts.specs.Resolved.{Resolved, ranked_line};
ghost use Rattle.sheet_parts.specs.Section.{section_of, TypesLong, SectionRoom};

use crate::line::{put_line, words_of};
use crate::part::type_line;
use crate::put::put_word;
use definition::layout::TYPES;
use records::file::File;
use records::words::word_at;

// The words of the section, whatever the ranks.
#[tactic(auto, using(crate::proofs::Sections::counting))]
pub fn count_types(file: &File<'_>, known: &[u32], store: &[u32]) -> usize
    requires { Resolved file.now.source known.now store.now }
    ensures { TypesLong file.now.source (Layout.count file.now.source Layout.types) result }
{
    let many = file.source.count(TYPES);
    let mut words: usize = 1;
    for t in 0..many {
        words += words_of(type_line(known, store, 0, t), 3);
    }
    words
}

// The section at the front of out, each line with the type's rank.
pub fn put_types(
    file: &File<'_>,
    known: &[u32],
    store: &[u32],
    ranks: &[u32],
    out: &mut [u32],
) -> usize
    requires { Resolved file.now.source known.now store.now × SectionRoom (ranked_line file.now.source (rank_at ranks.now)) (Layout.count file.now.source Layout.types) 0 (length out.old) }
    ensures { Puts (section_of (ranked_line file.now.source (rank_at ranks.now)) (Layout.count file.now.source Layout.types)) out.old 0 result out.new }
{
    let many = file.source.count(TYPES);
    let mut end = put_word(out, 0, many);
    for t in 0..many {
        let line = type_line(known, store, word_at(ranks, t as usize), t);
        end = put_line(out, end, line, store);
    }
    end
}
