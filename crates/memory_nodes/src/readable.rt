// Whether bytes are those that a node is written as.
#![tactic(auto, using(crate::proofs::Filling::fillings))]

ghost use Rattle.std.specs.Prelude.{◌≡◌, suc, ◌+◌, ◌-◌, ◌*◌, ◌%◌, ◌≤◌, length, take, drop};
ghost use Rattle.definition.specs.Layout.{members};
ghost use Rattle.definition.specs.Places.{first_named};
ghost use Rattle.memory_definition.specs.Numbers.{character_bytes};
ghost use Rattle.memory_definition.specs.Forms as Forms;
ghost use Rattle.memory_definition.specs.Forms.{size_as};
ghost use Rattle.memory_laws.specs.Bytes.{Bytes};
ghost use Rattle.memory_forms.specs.Cell.{cell_of};
ghost use Rattle.memory_nodes.specs.Readable as Readable;
ghost use Rattle.memory_nodes.specs.Reading.{own, Formed};

use crate::bytes::{number_from, zeros};
use crate::node::{node_read, short_from};
use memory_definition::form::Form;
use memory_forms::cells::Cell;
use memory_forms::form::{size_of, text_size};
use memory_forms::held::held;
use memory_forms::members::member_place;
use records::source::Source;

// Where a member first stands in its run, 0 where it does not.
#[tactic(auto, using(crate::proofs::Filling::places))]
fn first_place(file: &Source<'_>, name: u32, first: u32, many: u32) -> u32
    ensures { result ≡ first_named file.now members name first many - suc first }
{
    member_place(file, name, first, many).unwrap_or(0)
}

// A string's greatest length, its length, and zeros behind its characters.
#[tactic(auto, using(crate::proofs::Filling::strings))]
fn string_fills(bytes: &[u8], from: usize, most: u32, width: u32) -> bool
    requires { from + (4 + character_bytes width * most) ≤ length bytes.now }
    ensures { result ≡ Readable.string_fills most width (take (4 + character_bytes width * most) (drop from bytes.now)) }
{
    if short_from(bytes, from) != most % 65536 {
        return false;
    }
    let many = short_from(bytes, from + 2);
    if many > most {
        return false;
    }
    let text = from + 4;
    zeros(
        bytes,
        text + text_size(width, many),
        text + text_size(width, most),
    )
}

// What the form asks of its bytes, where the node that is read from them is held; `low` is its word.
fn fills(file: &Source<'_>, form: Form, low: u32, bytes: &[u8], from: usize) -> bool
    requires { (from + size_as form ≤ length bytes.now) }
    ensures { result ≡ Readable.fills file.now form low (own form bytes.now from) }
{
    match form {
        Form::Null => number_from(bytes, from, 4) == 0,
        Form::String { most, width } => string_fills(bytes, from, most, width),
        Form::Enumeration { first, count } => {
            short_from(bytes, from) == first_place(file, low, first, count) % 65536
        }
        Form::Nothing => false,
        _ => true,
    }
}

// The node's shape holds what is read from the bytes, and that is written as them.
#[tactic(auto, using(crate::proofs::Filling::readables))]
fn is_written(file: &Source<'_>, cell: Cell, form: Form, bytes: &[u8], from: usize) -> bool
    requires { Formed file.now (cell_of cell.shape cell.node) form × Bytes bytes.now × (from + size_as form ≤ length bytes.now) }
    ensures { result ≡ Forms.readable file.now (cell_of cell.shape cell.node) (own form bytes.now from) }
{
    let value = cell.node.value;
    let read = node_read(file, form, 0, value.kind, value.low, bytes, from);
    if !held(file, cell.shape, read) {
        return false;
    }
    fills(file, form, read.value.low, bytes, from)
}

// The same of the bytes from a place on, if there are as many as the form has.
#[tactic(auto, using(crate::proofs::Filling::readables))]
pub fn readable(file: &Source<'_>, cell: Cell, form: Form, bytes: &[u8], from: usize) -> bool
    requires { Formed file.now (cell_of cell.shape cell.node) form × Bytes bytes.now × (from ≤ length bytes.now) }
    ensures { result ≡ Forms.readable file.now (cell_of cell.shape cell.node) (own form bytes.now from) }
{
    if bytes.len() - from < size_of(form) {
        return false;
    }
    is_written(file, cell, form, bytes, from)
}
