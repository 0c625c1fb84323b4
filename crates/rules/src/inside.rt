// Refusal 4, first part: whether a number, a link or a run is inside its section, and points at a record of the right kind.
// The tests are joined by `&` and `|`, as in plain.rt: every read is in bounds, and an accepted file passes all of them.
#![tactic(auto)]

ghost use Rattle.std.specs.Prelude.{◌≡◌, ℕ, suc, true, false, ◌+◌, ◌^◌, ◌<◌};
ghost use Rattle.definition.specs.Base.{on_link};
ghost use Rattle.definition.specs.Layout.{initializers};
ghost use Rattle.definition.specs.Accept as Accept;

use definition::layout::{
    BLOCK_FIELDS, CONSTANTS, ENTRIES, EXPRESSIONS, INITIALIZERS, INLINE, TYPES,
};
use records::source::Source;

#[tactic(auto, unfolding(definition::specs::Accept::number_in))]
pub fn number_in(file: &Source<'_>, section: usize, n: u32) -> bool
    requires { section < 14 }
    ensures { result ≡ Accept.number_in file.now section n }
{
    n < file.count(section)
}

#[tactic(auto, unfolding(definition::specs::Accept::link_in))]
pub fn link_in(file: &Source<'_>, section: usize, n: u32) -> bool
    requires { section < 14 }
    ensures { result ≡ Accept.link_in file.now section n }
{
    n <= file.count(section)
}

#[tactic(auto, unfolding(definition::specs::Accept::run_in))]
pub fn run_in(file: &Source<'_>, section: usize, first: u32, many: u32) -> bool
    requires { section < 14 }
    ensures is { result ≡ Accept.run_in file.now section first many }
    ensures fits { result ≡ true → first + many < 2 ^ 32 }
{
    (first as u64) + (many as u64) <= (file.count(section) as u64)
}

#[tactic(auto, unfolding(definition::specs::Accept::constant_in))]
pub fn constant_in(file: &Source<'_>, kind: u32, c: u32) -> bool
    ensures { result ≡ Accept.constant_in file.now kind c }
{
    number_in(file, CONSTANTS, c) & (file.word(CONSTANTS, c, 0) == kind)
}

#[tactic(auto, unfolding(definition::specs::Accept::enumerated_entry))]
pub fn enumerated_entry(file: &Source<'_>, e: u32) -> bool
    ensures { result ≡ Accept.enumerated_entry file.now e }
{
    number_in(file, ENTRIES, e) & (file.word(ENTRIES, e, 1) == 0) & (file.word(ENTRIES, e, 0) == 1)
}

#[tactic(auto, unfolding(definition::specs::Accept::reference_points))]
fn reference_points(file: &Source<'_>, x: u32) -> bool
    ensures { result ≡ Accept.reference_points file.now x }
{
    let kind = file.word(EXPRESSIONS, x, 0);
    number_in(file, EXPRESSIONS, x) & ((kind == 4) | (kind == 5))
}

// No link, or one to a record that meets a rule.
pub fn link_to<F: Fn(u32) -> bool>(link: u32, rule: F) -> bool
    requires { F.IsAlwaysCallable rule }
    ensures none { link ≡ 0 → result ≡ true }
    ensures some { (n : ℕ) → link ≡ suc n → F.post rule n result }
{
    link.checked_sub(1).is_none_or(rule)
}

// No link, or one to a constant of a kind.
pub fn link_to_constant(file: &Source<'_>, kind: u32, link: u32) -> bool
    ensures { result ≡ Accept.link_to (Accept.constant_in file.now kind) link }
{
    link_to(link, |c| constant_in(file, kind, c))
}

pub fn link_to_enumerated(file: &Source<'_>, link: u32) -> bool
    ensures { result ≡ Accept.link_to (Accept.enumerated_entry file.now) link }
{
    link_to(link, |e| enumerated_entry(file, e))
}

pub fn link_to_reference(file: &Source<'_>, link: u32) -> bool
    ensures { result ≡ Accept.link_to (Accept.reference_points file.now) link }
{
    link_to(link, |x| reference_points(file, x))
}

// An alias always has an initializer.
#[tactic(auto, using(records::proofs::Links::links))]
pub fn start_in(file: &Source<'_>, link: u32) -> bool
    ensures { result ≡ on_link link false (Accept.number_in file.now initializers) }
{
    let Some(i) = link.checked_sub(1) else {
        return false;
    };
    number_in(file, INITIALIZERS, i)
}

// A type's name: a link, or inline where that is allowed.
#[tactic(auto, unfolding(definition::specs::Accept::name_in))]
pub fn name_in(file: &Source<'_>, inlined: bool, w: u32) -> bool
    ensures { result ≡ Accept.name_in file.now inlined w }
{
    link_in(file, TYPES, w) | (inlined & (w == INLINE))
}

// A type's block fields: a run, or none where the Rust has no block record.
#[tactic(auto, unfolding(definition::specs::Accept::block_points))]
pub fn block_points(file: &Source<'_>, first: u32, many: u32) -> bool
    ensures { result ≡ Accept.block_points file.now first many }
{
    run_in(file, BLOCK_FIELDS, first, many) | ((first == INLINE) & (many == 0))
}
