// Refusal 4, second part: runs whose every record meets a rule, and where entries may stand.
#![tactic(auto, using(crate::proofs::Running::running))]

ghost use Rattle.std.specs.Prelude.{◌≡◌, true, false, ◌&&◌, ◌||◌, ◌+◌, ◌==◌, ltb, leb, ◌<◌};
ghost use Rattle.definition.specs.Layout as Layout;
ghost use Rattle.definition.specs.Layout.{shape_fields, entries};
ghost use Rattle.definition.specs.Accept as Accept;
ghost use Rattle.rules.specs.Rules as Rules;
ghost use Rattle.rules.specs.Met.{MetBy};

use crate::inside::{link_to, run_in};
use definition::layout::{ENTRIES, SHAPE_FIELDS};
use plain::words::is_name;
use records::source::Source;

// Kinds 2 and 5 stand only in member lists.
#[tactic(auto, unfolding(crate::specs::Rules::array_kind))]
fn array_kind(kind: u32) -> bool
    ensures { result ≡ Rules.array_kind kind }
{
    matches!(kind, 0 | 1 | 3 | 4 | 6)
}

#[tactic(auto, using(crate::proofs::Running::running), unfolding(crate::specs::Rules::array_kind, definition::specs::Accept::array_entry))]
fn array_entry(file: &Source<'_>, e: u32) -> bool
    ensures { result ≡ Accept.array_entry file.now e }
{
    (file.word(ENTRIES, e, 1) == 0) & array_kind(file.word(ENTRIES, e, 0))
}

// Kind 6 stands only in arrays; member lists take named entries only.
#[tactic(auto, using(crate::proofs::Running::running), unfolding(definition::specs::Accept::member_entry))]
fn member_entry(file: &Source<'_>, e: u32) -> bool
    ensures { result ≡ Accept.member_entry file.now e }
{
    is_name(file.word(ENTRIES, e, 1)) & (file.word(ENTRIES, e, 0) <= 5)
}

// A run inside its section, whose every record meets a rule.
pub fn run_of<F: Fn(u32) -> bool>(
    file: &Source<'_>,
    section: usize,
    first: u32,
    many: u32,
    rule: F,
) -> bool
    requires section { section < 14 }
    requires pre { F.IsAlwaysCallable rule }
    ensures { MetBy (F.post rule) (λ p. Accept.run_of file.now section p first many) result }
{
    run_in(file, section, first, many) && (0..many).all(|j| rule(first + j))
}

// A run of shape fields, each of a shape below one.
pub fn fields_below(file: &Source<'_>, shape: u32, first: u32, many: u32) -> bool
    ensures { result ≡ Accept.run_of file.now shape_fields (λ k. ltb (Layout.word file.now shape_fields k 1) shape) first many }
{
    run_of(
        file,
        SHAPE_FIELDS,
        first,
        many,
        |k| file.word(SHAPE_FIELDS, k, 1) < shape,
    )
}

// A run of an array's entries.
pub fn array_run(file: &Source<'_>, first: u32, many: u32) -> bool
    ensures { result ≡ Accept.run_of file.now entries (Accept.array_entry file.now) first many }
{
    run_of(file, ENTRIES, first, many, |e| array_entry(file, e))
}

// A run of a member list's entries.
pub fn member_run(file: &Source<'_>, first: u32, many: u32) -> bool
    ensures { result ≡ Accept.run_of file.now entries (Accept.member_entry file.now) first many }
{
    run_of(file, ENTRIES, first, many, |e| member_entry(file, e))
}

// Entries point only to lower entries; an empty run points at none.
pub fn run_below(e: u32, first: u32, many: u32) -> bool
    ensures { result ≡ leb (first + many) e || (many == 0) }
{
    ((first as u64) + (many as u64) <= (e as u64)) | (many == 0)
}

// A repeat's inner entry.
pub fn link_to_lower(file: &Source<'_>, e: u32, link: u32) -> bool
    ensures { result ≡ Accept.link_to (λ i. ltb i e && Accept.array_entry file.now i) link }
{
    link_to(link, |i| (i < e) & array_entry(file, i))
}
