// Whether two shapes are like each other, and the lowest shape that is like one.
#![tactic(auto, using(crate::proofs::Comparing::comparing))]

ghost use Rattle.std.specs.Prelude.{◌≡◌, true, ◌+◌, ◌<◌, ◌≤◌, eqb};
ghost use Rattle.definition.specs.Layout as Layout;
ghost use Rattle.definition.specs.Layout.{shapes};
ghost use Rattle.definition.specs.Accept.{same_integer, shapes_like};
ghost use Rattle.shapes.specs.Alike.{same_in, like_at, told_by_first, words_like, members_like, array_like, first_like};

use crate::alike::{same_dimension, same_field, same_in, same_link, same_run_word, same_runs};
use definition::layout::{CONSTANTS, MEMBERS, SHAPES};
use records::source::Source;

// Word `place` is the same in two records of a section.
fn same_word(file: &Source<'_>, section: usize, m: u32, n: u32, place: usize) -> bool
    requires { (section < 14) × (place < 16) }
    ensures { result ≡ eqb (Layout.word file.now section m place) (Layout.word file.now section n place) }
{
    same_run_word(file, section, m, n, 0, place)
}

// Word `place` of two shapes stands for the same shape.
fn same_inside(file: &Source<'_>, classes: &[u32], m: u32, n: u32, place: usize) -> bool
    requires { place < 16 }
    ensures { result ≡ same_in classes.now (Layout.word file.now shapes m place) (Layout.word file.now shapes n place) }
{
    same_in(
        classes,
        file.word(SHAPES, m, place),
        file.word(SHAPES, n, place),
    )
}

// Two integer constants have one value: those at word `place` of two subranges.
#[tactic(auto, using(crate::proofs::Comparing::comparing), unfolding(definition::specs::Accept::same_integer))]
fn same_bound(file: &Source<'_>, m: u32, n: u32, place: usize) -> bool
    requires { place < 16 }
    ensures { result ≡ same_integer file.now (Layout.word file.now shapes m place) (Layout.word file.now shapes n place) }
{
    let c = file.word(SHAPES, m, place);
    let d = file.word(SHAPES, n, place);
    same_word(file, CONSTANTS, c, d, 1)
        & same_word(file, CONSTANTS, c, d, 2)
        & same_word(file, CONSTANTS, c, d, 3)
}

// Shape n of a file, to which others of the file are compared: a shape inside by the class that stands for it, and members of enumerations where they count.
#[derive(Drop)]
pub struct Sought<'a, 'b> {
    file: &'a Source<'b>,
    classes: &'a [u32],
    enumerated: bool,
    n: u32,
    // its first two words, and whether the second tells shapes of its kind apart
    kind: u32,
    first: u32,
    tells: bool,
    ghost kind_is: { kind ≡ Layout.word file.now shapes n 0 },
    ghost first_is: { first ≡ Layout.word file.now shapes n 1 },
    ghost tells_is: { tells ≡ told_by_first kind },
}

impl<'a, 'b> Sought<'a, 'b> {
    pub fn new(file: &'a Source<'b>, classes: &'a [u32], enumerated: bool, n: u32) -> Sought<'a, 'b>
        ensures file { result.file.now ≡ file.now }
        ensures classes { result.classes.now ≡ classes.now }
        ensures enumerated { result.enumerated ≡ enumerated }
        ensures n { result.n ≡ n }
    {
        let kind = file.word(SHAPES, n, 0);
        let first = file.word(SHAPES, n, 1);
        let tells = told(kind);
        Sought {
            file,
            classes,
            enumerated,
            n,
            kind,
            first,
            tells,
        }
    }

    // Members and default, where they count.
    fn members_like(&self, m: u32) -> bool
        ensures { result ≡ members_like self.now.file.now self.now.classes.now self.now.enumerated m self.now.n }
    {
        if !self.enumerated {
            return true;
        }
        let file = self.file;
        if !same_word(file, SHAPES, m, self.n, 3) {
            return false;
        }
        same_runs(
            file,
            |a, b, j| same_run_word(file, MEMBERS, a, b, j, 0),
            m,
            self.n,
            1,
        )
    }

    #[tactic(auto, using(crate::proofs::Comparing::comparing), unfolding(crate::specs::Alike::like_at, crate::specs::Alike::members_like, definition::specs::Accept::like_by, definition::specs::Records::shape_of))]
    fn enumeration_like(&self, m: u32) -> bool
        ensures { result ≡ like_at self.now.file.now self.now.classes.now self.now.enumerated 10 m self.now.n }
    {
        let underlying = self.file.word(SHAPES, m, 4);
        let other = self.file.word(SHAPES, self.n, 4);
        self.members_like(m) & same_link(self.classes, underlying, other)
    }

    fn array_like(&self, m: u32) -> bool
        ensures { result ≡ array_like self.now.file.now self.now.classes.now m self.now.n }
    {
        let file = self.file;
        if !same_inside(file, self.classes, m, self.n, 1) {
            return false;
        }
        same_runs(file, |a, b, j| same_dimension(file, a, b, j), m, self.n, 2)
    }

    #[tactic(auto, using(crate::proofs::Comparing::comparing), unfolding(crate::specs::Alike::like_at, definition::specs::Accept::like_by, definition::specs::Records::shape_of))]
    fn subrange_like(&self, m: u32) -> bool
        ensures { result ≡ like_at self.now.file.now self.now.classes.now true 13 m self.now.n }
    {
        same_inside(self.file, self.classes, m, self.n, 1)
            & same_bound(self.file, m, self.n, 2)
            & same_bound(self.file, m, self.n, 3)
    }

    // Of one kind whose words lead on: to runs, shapes or constants.
    #[tactic(auto, using(crate::proofs::Comparing::comparing), unfolding(crate::specs::Alike::array_like, crate::specs::Alike::like_at, definition::specs::Accept::like_by, definition::specs::Records::shape_of))]
    fn inside_like(&self, m: u32) -> bool
        requires { (10 ≤ self.now.kind) × (self.now.kind < 14) }
        ensures { result ≡ like_at self.now.file.now self.now.classes.now self.now.enumerated self.now.kind m self.now.n }
    {
        let file = self.file;
        let classes = self.classes;
        match self.kind {
            10 => self.enumeration_like(m),
            11 => same_runs(
                file,
                |a, b, j| same_field(file, classes, a, b, j),
                m,
                self.n,
                1,
            ),
            12 => self.array_like(m),
            _ => self.subrange_like(m),
        }
    }

    fn same_first(&self, m: u32) -> bool
        ensures { result ≡ eqb (Layout.word self.now.file.now shapes m 1) (Layout.word self.now.file.now shapes self.now.n 1) }
    {
        self.file.word(SHAPES, m, 1) == self.first
    }

    // Of one kind whose own words say all.
    #[tactic(auto, using(crate::proofs::Comparing::first_word), unfolding(crate::specs::Alike::words_like))]
    fn words_like(&self, m: u32) -> bool
        ensures { result ≡ words_like self.now.file.now self.now.kind m self.now.n }
    {
        match self.kind {
            0 => true,
            9 => self.same_first(m) & same_word(self.file, SHAPES, m, self.n, 2),
            _ => self.same_first(m),
        }
    }

    // Of one kind.
    fn like(&self, m: u32) -> bool
        ensures { result ≡ like_at self.now.file.now self.now.classes.now self.now.enumerated self.now.kind m self.now.n }
    {
        match self.kind {
            16 => same_inside(self.file, self.classes, m, self.n, 1),
            0..=9 => self.words_like(m),
            10..=13 => self.inside_like(m),
            14..=15 => self.words_like(m),
            _ => false,
        }
    }

    // Most shapes are told apart by kind and first word, before anything is handed on.
    pub fn is_like(&self, m: u32) -> bool
        ensures { result ≡ shapes_like self.now.file.now (same_in self.now.classes.now) self.now.enumerated m self.now.n }
    {
        let other = self.file.word(SHAPES, m, 0);
        if other != self.kind {
            return false;
        }
        if self.tells {
            let own = self.file.word(SHAPES, m, 1);
            if own != self.first {
                return false;
            }
        }
        self.like(m)
    }
}

// Shapes of this kind are told apart by their first word: bits, a string's length or a name.
#[tactic(auto, using(crate::proofs::Comparing::telling))]
pub fn told(kind: u32) -> bool
    ensures { result ≡ told_by_first kind }
{
    matches!(kind, 1..=9 | 14 | 15)
}

// The lowest shape below n that is like it, or n.
pub fn first_like(file: &Source<'_>, classes: &[u32], enumerated: bool, n: u32) -> u32
    ensures { result ≡ first_like file.now classes.now enumerated n }
{
    let sought = Sought::new(file, classes, enumerated, n);
    (0..n).find(|m| sought.is_like(*m)).unwrap_or(n)
}
