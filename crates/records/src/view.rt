// One record as a value: its words, and which value they give.
ghost use Rattle.std.specs.Prelude.{◌≡◌};
ghost use Rattle.definition.specs.Records.{shape_of, shape_at, declaration_of, declaration_at, initializer_of, initializer_at, entry_of, entry_at, expression_of, expression_at, constant_at};

use crate::source::Source;
use definition::layout::{CONSTANTS, ENTRIES, EXPRESSIONS, INITIALIZERS, SHAPES, TYPES};
use definition::records::{Constant, Declaration, Entry, Expression, Initializer, Shape};

#[tactic(auto, unfolding(definition::specs::Records::shape_of))]
pub fn shape_of(kind: u32, a: u32, b: u32, c: u32, d: u32) -> Shape
    ensures { result ≡ shape_of kind a b c d }
{
    match kind {
        0 => Shape::Bool,
        1 => Shape::Int { bits: a },
        2 => Shape::UInt { bits: a },
        3 => Shape::Real { bits: a },
        4 => Shape::Bytes { bits: a },
        5 => Shape::Time { bits: a },
        6 => Shape::Date { bits: a },
        7 => Shape::TimeOfDay { bits: a },
        8 => Shape::DateAndTime { bits: a },
        9 => Shape::String {
            length: a,
            width: b,
        },
        10 => Shape::Enumeration {
            first: a,
            count: b,
            default: c,
            underlying: d,
        },
        11 => Shape::Structure { first: a, count: b },
        12 => Shape::Array {
            element: a,
            first: b,
            count: c,
        },
        13 => Shape::Subrange {
            base: a,
            least: b,
            greatest: c,
        },
        14 => Shape::FunctionBlock { name: a },
        15 => Shape::Interface { name: a },
        16 => Shape::Reference { target: a },
        _ => Shape::Unknown,
    }
}

impl<'a> Source<'a> {
    #[tactic(auto, unfolding(definition::specs::Records::shape_at))]
    pub fn shape(&self, n: u32) -> Shape
        ensures { result ≡ shape_at self.now n }
    {
        let [kind, a, b, c, d] = self.words_from::<5>(SHAPES, n, 0);
        shape_of(kind, a, b, c, d)
    }
}

#[tactic(auto, unfolding(definition::specs::Records::declaration_of))]
fn declaration_of(kind: u32, named: u32, start: u32, first: u32, many: u32) -> Declaration
    ensures { result ≡ declaration_of kind named start first many }
{
    match kind {
        0 => Declaration::Nothing,
        1 => Declaration::Simple { initializer: start },
        2 => Declaration::Subrange { named, start },
        3 => Declaration::String { start },
        4 => Declaration::Array {
            named,
            first,
            count: many,
        },
        5 => Declaration::Structure { first, count: many },
        6 => Declaration::Reference { named },
        7 => Declaration::Enumeration { named },
        8 => Declaration::LateBound { named },
        9 => Declaration::FunctionBlock { first, count: many },
        _ => Declaration::Unknown,
    }
}

impl<'a> Source<'a> {
    #[tactic(auto, unfolding(definition::specs::Records::declaration_at, definition::specs::Records::declaration_kind))]
    pub fn declaration(&self, t: u32) -> Declaration
        ensures { result ≡ declaration_at self.now t }
    {
        let [kind, named, start, first, many] = self.words_from::<5>(TYPES, t, 4);
        declaration_of(kind, named, start, first, many)
    }
}

#[tactic(auto, unfolding(definition::specs::Records::initializer_of))]
fn initializer_of(
    kind: u32,
    value: u32,
    first: u32,
    many: u32,
    length: u32,
    width: u32,
) -> Initializer
    ensures { result ≡ initializer_of kind value first many length width }
{
    match kind {
        0 => Initializer::Nothing,
        1 => Initializer::Interface,
        2 => Initializer::Subrange { value },
        3 => Initializer::Simple { value },
        4 => Initializer::String {
            value,
            length,
            width,
        },
        5 => Initializer::EnumeratedValues { value },
        6 => Initializer::EnumeratedType { value },
        7 => Initializer::FunctionBlock { first, count: many },
        8 => Initializer::Structure { first, count: many },
        9 => Initializer::Array { first, count: many },
        10 => Initializer::Reference { value },
        11 => Initializer::LateResolved { value },
        12 => Initializer::Call,
        13 => Initializer::SimpleExpression,
        14 => Initializer::StringExpression,
        _ => Initializer::Unknown,
    }
}

impl<'a> Source<'a> {
    #[tactic(auto, unfolding(definition::specs::Records::initializer_at, definition::specs::Records::initializer_kind))]
    pub fn initializer(&self, i: u32) -> Initializer
        ensures { result ≡ initializer_at self.now i }
    {
        let kind = self.word(INITIALIZERS, i, 0);
        let [value, first, many, length, width] = self.words_from::<5>(INITIALIZERS, i, 3);
        initializer_of(kind, value, first, many, length, width)
    }
}

#[tactic(auto, unfolding(definition::specs::Records::entry_of))]
fn entry_of(kind: u32, a: u32, b: u32) -> Entry
    ensures { result ≡ entry_of kind a b }
{
    match kind {
        0 => Entry::Constant { number: a },
        1 => Entry::Enumerated {
            value: a,
            qualifier: b,
        },
        2 => Entry::Array { first: a, count: b },
        3 => Entry::Structure { first: a, count: b },
        4 => Entry::Expression { number: a },
        5 => Entry::LateBound,
        6 => Entry::Repeat { count: a, inner: b },
        _ => Entry::Unknown,
    }
}

impl<'a> Source<'a> {
    #[tactic(auto, unfolding(definition::specs::Records::entry_at))]
    pub fn entry(&self, e: u32) -> Entry
        ensures { result ≡ entry_at self.now e }
    {
        let [kind, _, a, b] = self.words_from::<4>(ENTRIES, e, 0);
        entry_of(kind, a, b)
    }
}

#[tactic(auto, unfolding(definition::specs::Records::expression_of))]
fn expression_of(kind: u32, a: u32) -> Expression
    ensures { result ≡ expression_of kind a }
{
    match kind {
        0 => Expression::Constant { number: a },
        1 => Expression::Enumerated { entry: a },
        2 => Expression::Parentheses { inner: a },
        3 => Expression::Conversion { inner: a },
        4 => Expression::Null,
        5 => Expression::Reference,
        6 => Expression::Other,
        _ => Expression::Unknown,
    }
}

impl<'a> Source<'a> {
    #[tactic(auto, unfolding(definition::specs::Records::expression_at))]
    pub fn expression(&self, x: u32) -> Expression
        ensures { result ≡ expression_at self.now x }
    {
        let [kind, a] = self.words_from::<2>(EXPRESSIONS, x, 0);
        expression_of(kind, a)
    }
}

impl<'a> Source<'a> {
    #[tactic(auto, unfolding(definition::specs::Records::constant_at, definition::specs::Records::constant_of))]
    pub fn constant(&self, c: u32) -> Constant
        ensures { result ≡ constant_at self.now c }
    {
        let [kind, sign, low, high, width] = self.words_from::<5>(CONSTANTS, c, 0);
        Constant {
            kind,
            sign,
            low,
            high,
            width,
        }
    }
}
