// An accepted file.
#![tactic(auto)]

ghost use Rattle.std.specs.Prelude.{◌≡◌, ◌&&◌, leb};
ghost use Rattle.definition.specs.Layout as Layout;
ghost use Rattle.definition.specs.Layout.{types};
ghost use Rattle.definition.specs.Records.{declaration_kind};
ghost use Rattle.definition.specs.Places.{declared_types};
ghost use Rattle.laws.specs.Accepted.{Accepted};

use crate::source::Source;
use definition::layout::TYPES;

// A file that is accepted, and how many types a `TYPE` declaration declares, which is found once.
#[derive(Drop)]
pub struct File<'a> {
    pub source: Source<'a>,
    pub declared: usize,
    ghost accepted: { Accepted source },
    ghost counted: { declared ≡ declared_types source (Layout.count source types) },
}

// Whether a `TYPE` declaration declares t.
#[tactic(auto, unfolding(definition::specs::Records::declaration_kind))]
fn is_declared(source: &Source<'_>, t: u32) -> bool
    ensures { result ≡ leb 1 (declaration_kind source.now t) && leb (declaration_kind source.now t) 8 }
{
    let kind = source.word(TYPES, t, 4);
    (1 <= kind) & (kind <= 8)
}

// How many types a `TYPE` declaration declares.
pub fn declared_types(source: &Source<'_>) -> usize
    ensures { result ≡ declared_types source.now (Layout.count source.now types) }
{
    (0..source.count(TYPES))
        .filter(|t| is_declared(source, *t))
        .count()
}

impl<'a> File<'a> {
    pub fn new(words: &'a [u32]) -> File<'a>
        requires { Accepted words.now }
        ensures { result.source ≡ words.now }
    {
        let source = Source::new(words);
        let declared = declared_types(&source);
        File { source, declared }
    }
}
