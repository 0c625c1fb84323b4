// Refusals 3 and 4 over the whole file: a scan of the records of each section.
#![tactic(auto)]

ghost use Rattle.std.specs.Prelude.{◌≡◌, ◌<◌};
ghost use Rattle.definition.specs.Base.{every};
ghost use Rattle.definition.specs.Layout as Layout;
ghost use Rattle.definition.specs.Accept.{words_right, points_right};
ghost use Rattle.rules.specs.Met.{MetBy, MetAll};

use crate::rules::{plain_rule, point_rule};
use definition::layout::SECTIONS;
use records::source::Source;

// Every record of a section meets its rule.
fn section_meets<F: Fn(usize, u32) -> bool>(file: &Source<'_>, section: usize, rule: &F) -> bool
    requires section { section < 14 }
    requires pre { F.IsAlwaysCallable rule.now }
    ensures { MetBy (F.post rule.now section) (λ p. every p (Layout.count file.now section)) result }
{
    (0..file.count(section)).all(|n| rule(section, n))
}

// Every record of every section meets the rule of its section.
fn everywhere<F: Fn(usize, u32) -> bool>(file: &Source<'_>, rule: F) -> bool
    requires { F.IsAlwaysCallable rule }
    ensures { MetAll (F.post rule) file.now result }
{
    (0..SECTIONS).all(|s| section_meets(file, s, &rule))
}

// Refusal 3: a word has a value that its record does not allow.
pub fn words_right(file: &Source<'_>) -> bool
    ensures { result ≡ words_right file.now }
{
    everywhere(file, |s, n| plain_rule(file, s, n))
}

// Refusal 4: a used number, link or run points where it must not.
pub fn points_right(file: &Source<'_>) -> bool
    ensures { result ≡ points_right file.now }
{
    everywhere(file, |s, n| point_rule(file, s, n))
}
