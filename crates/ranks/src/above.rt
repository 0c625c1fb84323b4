// A number raised above the rank of each type that a record uses: the uses of the definition (specs/Uses.antt), record by record.
#![tactic(auto, using(crate::proofs::Raising::raising))]

ghost use Rattle.std.specs.Prelude.{◌≡◌, ℕ, ◌+◌, ◌-◌};
ghost use Rattle.definition.specs.Uses.{linked, named_use, initializer_uses, element_uses, variable_uses, block_field_uses, declaration_uses, block_uses, uses, raise};
ghost use Rattle.definition.specs.Records.{declaration_at};
ghost use Rattle.ranks.specs.Above.{line_rank, rank_in, start_uses, reference_uses, links_of};

use definition::layout::{BLOCK_FIELDS, ELEMENTS, INITIALIZERS, INLINE, TYPES, VARIABLES};
use definition::records::Declaration;
use records::source::Source;
use records::words::word_at;

// What gives each type a rank.
pub trait Ranks: Copy {
    ghost rank_of: { Self → ℕ → ℕ };

    fn rank(self, t: u32) -> u32
        ensures { result ≡ rank_of self t };
}

// Words hold each type's rank at its number.
pub fn rank_in(words: &[u32], t: u32) -> u32
    ensures { result ≡ rank_in words.now t }
{
    word_at(words, t as usize)
}

impl<'a> Ranks for &'a [u32] {
    ghost rank_of = { λ words. rank_in words.now };

    fn rank(self, t: u32) -> u32 {
        rank_in(self, t)
    }
}

// The lines of a sheet hold each type's rank at their heads, to which its word of an index leads (crate lines).
#[derive(Clone, Copy)]
pub struct LineRanks<'a> {
    pub index: &'a [u32],
    pub sheet: &'a [u32],
}

// The place that a word of an index leads to.
fn place_of(word: u32) -> usize
    ensures { result ≡ word - 2 }
{
    (word as usize).saturating_sub(2)
}

impl<'a> Ranks for LineRanks<'a> {
    ghost rank_of = { λ lines. line_rank lines.index.now lines.sheet.now };

    fn rank(self, t: u32) -> u32 {
        word_at(self.sheet, place_of(word_at(self.index, t as usize)))
    }
}

// One above a type's rank: a rank may be any word, so this need not fit one.
fn over_rank<R: Ranks>(ranks: R, t: u32) -> usize
    ensures { result ≡ R.rank_of ranks t + 1 }
{
    ranks.rank(t) as usize + 1
}

fn above_link<R: Ranks>(ranks: R, link: u32, high: usize) -> usize
    ensures { result ≡ raise (R.rank_of ranks) high (linked link) }
{
    let Some(t) = link.checked_sub(1) else {
        return high;
    };
    high.max(over_rank(ranks, t))
}

// A named type, which may be inline.
fn above_name<R: Ranks>(ranks: R, name: u32, high: usize) -> usize
    ensures { result ≡ raise (R.rank_of ranks) high (named_use name) }
{
    if name == INLINE {
        return high;
    }
    above_link(ranks, name, high)
}

fn above_initializer<R: Ranks>(file: &Source<'_>, ranks: R, i: u32, high: usize) -> usize
    ensures { result ≡ raise (R.rank_of ranks) high (initializer_uses file.now i) }
{
    let name = file.word(INITIALIZERS, i, 1);
    let element = file.word(INITIALIZERS, i, 2);
    let most = above_name(ranks, name, high);
    above_link(ranks, element, most)
}

// The elements of a structure, one after another.
fn above_elements<R: Ranks>(
    file: &Source<'_>,
    ranks: R,
    first: u32,
    many: u32,
    high: usize,
) -> usize
    ensures { result ≡ raise (R.rank_of ranks) high (element_uses file.now first many) }
{
    (0..many).fold(high, |most, j| {
        let i = file.run_word(ELEMENTS, first, j, 1);
        above_initializer(file, ranks, i, most)
    })
}

// The variables of a function block.
fn above_variables<R: Ranks>(
    file: &Source<'_>,
    ranks: R,
    first: u32,
    many: u32,
    high: usize,
) -> usize
    ensures { result ≡ raise (R.rank_of ranks) high (variable_uses file.now first many) }
{
    (0..many).fold(high, |most, j| {
        let link = file.run_word(VARIABLES, first, j, 2);
        let i = file.run_word(VARIABLES, first, j, 3);
        above_initializer(file, ranks, i, above_link(ranks, link, most))
    })
}

fn above_fields<R: Ranks>(file: &Source<'_>, ranks: R, first: u32, many: u32, high: usize) -> usize
    ensures { result ≡ raise (R.rank_of ranks) high (block_field_uses file.now first many) }
{
    (0..many).fold(high, |most, j| {
        above_link(ranks, file.run_word(BLOCK_FIELDS, first, j, 1), most)
    })
}

// The initializer of an alias, where it has one.
fn above_start<R: Ranks>(file: &Source<'_>, ranks: R, start: u32, high: usize) -> usize
    ensures { result ≡ raise (R.rank_of ranks) high (start_uses file.now start) }
{
    let Some(i) = start.checked_sub(1) else {
        return high;
    };
    above_initializer(file, ranks, i, high)
}

// The named type of a reference, where it is not the referenced type.
fn above_reference<R: Ranks>(file: &Source<'_>, ranks: R, t: u32, name: u32, high: usize) -> usize
    ensures { result ≡ raise (R.rank_of ranks) high (reference_uses file.now t name) }
{
    let referenced = file.word(TYPES, t, 3);
    if name == referenced {
        return high;
    }
    above_link(ranks, name, high)
}

#[tactic(auto, using(crate::proofs::Raising::types_over))]
fn above_declaration<R: Ranks>(file: &Source<'_>, ranks: R, t: u32, high: usize) -> usize
    ensures { result ≡ raise (R.rank_of ranks) high (declaration_uses file.now t (declaration_at file.now t)) }
{
    match file.declaration(t) {
        Declaration::Nothing => high,
        Declaration::Simple { initializer } => { above_start(file, ranks, initializer, high) }
        Declaration::Subrange { named, .. } => above_name(ranks, named, high),
        Declaration::String { .. } => high,
        Declaration::Array { named, .. } => above_name(ranks, named, high),
        Declaration::Structure { first, count } => {
            above_elements(file, ranks, first, count, high)
        }
        Declaration::Reference { named } => { above_reference(file, ranks, t, named, high) }
        Declaration::Enumeration { named } => above_link(ranks, named, high),
        Declaration::LateBound { named } => above_link(ranks, named, high),
        Declaration::FunctionBlock { first, count } => {
            above_variables(file, ranks, first, count, high)
        }
        Declaration::Unknown => high,
    }
}

// The block fields of a type's own record.
#[tactic(auto, using(crate::proofs::Raising::types_over))]
fn above_block<R: Ranks>(file: &Source<'_>, ranks: R, t: u32, high: usize) -> usize
    ensures { result ≡ raise (R.rank_of ranks) high (block_uses file.now t) }
{
    let first = file.word(TYPES, t, 9);
    let many = file.word(TYPES, t, 10);
    above_fields(file, ranks, first, many, high)
}

// What the record itself names.
#[tactic(auto, using(crate::proofs::Raising::types_over))]
fn above_links<R: Ranks>(file: &Source<'_>, ranks: R, t: u32) -> usize
    ensures { result ≡ raise (R.rank_of ranks) 0 (links_of file.now t) }
{
    let base = file.word(TYPES, t, 1);
    let element = file.word(TYPES, t, 2);
    let most = above_link(ranks, base, 0);
    above_link(ranks, element, most)
}

// The lowest rank above all that a type uses.
#[tactic(auto, using(crate::proofs::Raising::types_over))]
pub fn raised<R: Ranks>(file: &Source<'_>, ranks: R, t: u32) -> usize
    ensures { result ≡ raise (R.rank_of ranks) 0 (uses file.now t) }
{
    let links = above_links(file, ranks, t);
    let declared = above_declaration(file, ranks, t, links);
    above_block(file, ranks, t, declared)
}
