// What a constant or an enumerated value gives a place, and what a shape without parts starts with when nothing declares one (`constant`,
// `from_enumerated_value`, `implicit_default`).
#![tactic(auto, using(crate::proofs::values::Laws::laws))]

ghost use Rattle.std.specs.Prelude.{◌≡◌, ◌+◌, ◌-◌, ◌^◌, ◌≤◌, ◌<◌, length, take, drop};
ghost use Rattle.definition.specs.Layout as Layout;
ghost use Rattle.definition.specs.Layout.{count, count_at, members, constants};
ghost use Rattle.definition.specs.Records.{constant_at};
ghost use Rattle.definition.specs.Scalar as scalar;
ghost use Rattle.definition.specs.Scalar.{as_tree, constant_value, built_in, enumerated_value};
ghost use Rattle.laws.specs.Bits.{Bits};
ghost use Rattle.definition.specs.Ask.{result_of};
ghost use Rattle.scalar.specs.Convert.{Bounds, Counts};
ghost use Rattle.scalar.specs.Members as Members;
ghost use Rattle.places.specs.Inside.{ShapeIn};
ghost use Rattle.places.specs.Values.{DefaultName};

use definition::layout::{MEMBERS, SETTINGS};
use definition::records::{Constant, Shape};
use records::file::File;
use records::source::Source;
use scalar::convert::convert;
use scalar::default::implicit_default;
use scalar::members::from_enumerated_value;
use scalar::node;

// The two bounds of a subrange.
#[derive(Clone, Copy)]
struct Range {
    least: Constant,
    greatest: Constant,
}

// A subrange's bounds are constants of the file; another shape has none, and any constant does.
fn range_of(file: &Source<'_>, shape: Shape, any: Constant) -> Range
    ensures { Bounds file.now shape result.least result.greatest }
{
    match shape {
        Shape::Subrange {
            base: _,
            least,
            greatest,
        } => Range {
            least: file.constant(least),
            greatest: file.constant(greatest),
        },
        _ => Range {
            least: any,
            greatest: any,
        },
    }
}

// A constant as a literal of the kind that the place stores.
pub fn converted(file: &Source<'_>, shape: Shape, c: Constant) -> Option<Constant>
    requires { Bits shape × Counts shape c }
    ensures { result_of result ≡ scalar.converted file.now shape c }
{
    let setting = file.word(SETTINGS, 0, 0);
    let range = range_of(file, shape, c);
    convert(shape, c, range.least, range.greatest, setting)
}

// What a constant of the file gives a place.
pub fn constant_value(file: &File<'_>, shape: Shape, number: u32) -> Option<Constant>
    requires { ShapeIn file.now.source shape × (number < count file.now.source constants) }
    ensures { as_tree (result_of result) ≡ constant_value file.now.source shape (constant_at file.now.source number) }
{
    let c = file.source.constant(number);
    converted(&file.source, shape, c)
}

// Where a member stands: a record of that section is one word.
fn member_at(file: &Source<'_>, number: u32) -> usize
    ensures is { result ≡ count_at file.now members + 1 + number }
    ensures near { result ≤ 2 ^ 41 }
{
    file.start(MEMBERS) + 1 + (number as usize)
}

fn part(words: &[u32], from: usize, to: usize) -> &[u32]
    requires { (from ≤ to) × (to ≤ length words.now) }
    ensures { result.now ≡ take (to - from) (drop from words.now) }
{
    &words[from..to]
}

// The names of a run of members.
fn member_names<'a>(file: &File<'a>, first: u32, many: u32) -> &'a [u32]
    requires { (first + many ≤ Layout.count file.now.source members) }
    ensures { Members.Run file.now.source first many result.now }
{
    let from = member_at(&file.source, first);
    part(file.source.words(), from, from + (many as usize))
}

// One of the members by its name, with its qualifier kept.
pub fn enumerated_value(
    file: &File<'_>,
    shape: Shape,
    value: u32,
    qualifier: u32,
) -> Option<Constant>
    requires { ShapeIn file.now.source shape }
    ensures { as_tree (result_of result) ≡ enumerated_value file.now.source shape value qualifier }
{
    match shape {
        Shape::Enumeration {
            first,
            count,
            default: _,
            underlying: _,
        } => from_enumerated_value(member_names(file, first, count), value, qualifier),
        _ => None,
    }
}

// The name at an enumeration's default place; another shape has none, and any name does.
fn default_name(file: &Source<'_>, shape: Shape) -> u32
    ensures { DefaultName file.now shape result }
{
    match shape {
        Shape::Enumeration {
            first,
            count: _,
            default,
            underlying: _,
        } => file.run_word(MEMBERS, first, default, 0),
        _ => 0,
    }
}

// The value that a shape without parts starts with when nothing declares one.
pub fn built_in(file: &Source<'_>, shape: Shape) -> Option<Constant>
    ensures { as_tree (result_of result) ≡ built_in file.now shape }
{
    let range = range_of(file, shape, node::null());
    let member = default_name(file, shape);
    let setting = file.word(SETTINGS, 0, 0);
    implicit_default(shape, range.least, member, setting)
}
