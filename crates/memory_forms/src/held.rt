// Whether the shape of a node's place holds it (all others are refusal 14).
#![tactic(auto, using(crate::proofs::Holding::holding))]

ghost use Rattle.std.specs.Prelude.{◌≡◌, not, ◌&&◌, eqb};
ghost use Rattle.definition.specs.declared.records.Shape.TheVariants as shape;
ghost use Rattle.definition.specs.Layout.{members};
ghost use Rattle.definition.specs.Places.{first_named};
ghost use Rattle.definition.specs.Scalar.{uncut_word};
ghost use Rattle.laws.specs.Bits.{Bits};
ghost use Rattle.memory_definition.specs.declared.form.Form.TheVariants as form;
ghost use Rattle.memory_definition.specs.Cells as Cells;
ghost use Rattle.memory_definition.specs.Forms as Forms;
ghost use Rattle.memory_definition.specs.Forms.{constant_on, fits_up_to, held_constant, held_head};
ghost use Rattle.memory_laws.specs.Placed.{Placed};
ghost use Rattle.memory_forms.specs.Cell.{node_of, cell_of};

use crate::entries::entries_up_to;
use crate::form::form_of;
use crate::members::member_place;
use definition::layout::{SETTINGS, SHAPES};
use definition::records::{Constant, Shape};
use memory_definition::form::Form;
use places::values::converted;
use plain::words::constant_plain;
use ranges::range::size;
use reals::is_nan;
use records::source::Source;
use scalar::string::{max_length, string_constant};
use tree::node::Node;

// A node's last word by its kind: of a string's only the width, without the characters cut.
fn uncut_word(kind: u32, last: u32) -> u32
    ensures { result ≡ uncut_word kind last }
{
    if kind == 8 {
        return last % 2;
    }
    last
}

// The constant that a node without parts holds.
pub fn constant_on(node: Node) -> Constant
    ensures { result ≡ constant_on (node_of node) }
{
    let c = node.value;
    Constant {
        width: uncut_word(c.kind, c.width),
        ..c
    }
}

// A string whose place holds all its characters and has its width. `converted` counts the characters cut in a word, which a node's may not fit.
fn unchanged_string(file: &Source<'_>, length: u32, width: u32, c: Constant) -> bool
    ensures { result ≡ Forms.unchanged file.now (shape.String length width) c }
{
    let setting = file.word(SETTINGS, 0, 0);
    let Some(most) = max_length(length, setting) else {
        return false;
    };
    if most < c.high {
        return false;
    }
    c == string_constant(c.low, c.high, width)
}

// Conversion to the shape returns it unchanged.
fn unchanged(file: &Source<'_>, shape: Shape, c: Constant) -> bool
    requires { Bits shape }
    ensures { result ≡ Forms.unchanged file.now shape c }
{
    match shape {
        Shape::String { length, width } => unchanged_string(file, length, width, c),
        _ => converted(file, shape, c) == Some(c),
    }
}

// It fits the shape, and if that is a subrange, its base.
fn fits_up_to(file: &Source<'_>, most: usize, shape: Shape, c: Constant) -> bool
    requires { Placed file.now shape }
    ensures { result ≡ fits_up_to file.now most shape c }
{
    let mut place = shape;
    for _ in 0..most {
        if !unchanged(file, place, c) {
            return false;
        }
        let Shape::Subrange {
            base,
            least: _,
            greatest: _,
        } = place
        else {
            return true;
        };
        place = file.shape(base);
    }
    false
}

fn held_constant(file: &Source<'_>, shape: Shape, node: Node) -> bool
    requires { Placed file.now shape }
    ensures { result ≡ held_constant file.now (cell_of shape node) }
{
    let c = constant_on(node);
    if !constant_plain(c.kind, c.sign, c.low, c.high, c.width) {
        return false;
    }
    let most = file.count(SHAPES) as usize + 1;
    fits_up_to(file, most, shape, c)
}

fn held_real(file: &Source<'_>, shape: Shape, node: Node) -> bool
    requires { Placed file.now shape }
    ensures { result ≡ Forms.held_as file.now form.Real (cell_of shape node) }
{
    if is_nan(size(constant_on(node))) {
        return false;
    }
    held_constant(file, shape, node)
}

fn held_array(file: &Source<'_>, shape: Shape, node: Node) -> bool
    ensures { result ≡ eqb node.value.kind 13 && eqb node.value.low (Cells.entries_of file.now shape) }
{
    if node.value.kind != 13 {
        return false;
    }
    let left = file.count(SHAPES) as usize;
    node.value.low as u64 == entries_up_to(file, left, shape)
}

fn held_head(file: &Source<'_>, shape: Shape, node: Node) -> bool
    ensures { result ≡ held_head file.now (cell_of shape node) }
{
    match shape {
        Shape::Structure { first: _, count } => (node.value.kind == 14) & (node.value.low == count),
        Shape::Array { .. } => held_array(file, shape, node),
        Shape::FunctionBlock { .. } => node.value.kind == 14,
        _ => false,
    }
}

fn held_member(file: &Source<'_>, first: u32, many: u32, node: Node) -> bool
    ensures { result ≡ eqb node.value.kind 9 && not (eqb (first_named file.now members node.value.low first many) 0) }
{
    if node.value.kind != 9 {
        return false;
    }
    member_place(file, node.value.low, first, many).is_some()
}

pub fn held(file: &Source<'_>, shape: Shape, node: Node) -> bool
    requires { Placed file.now shape }
    ensures { result ≡ Forms.held file.now (cell_of shape node) }
{
    match form_of(file, shape, node.value.kind) {
        Form::Head => held_head(file, shape, node),
        Form::Null => node.value.kind == 10,
        Form::Real => held_real(file, shape, node),
        Form::Enumeration { first, count } => held_member(file, first, count, node),
        Form::Nothing => false,
        _ => held_constant(file, shape, node),
    }
}
