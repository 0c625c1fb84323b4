// One node as bytes.
#![tactic(auto, using(crate::proofs::Standing::standing))]

ghost use Rattle.std.specs.Prelude.{◌≡◌, true, ◌+◌, ◌/◌, ◌≤◌, length};
ghost use Rattle.laws.specs.Puts.{Puts};
ghost use Rattle.memory_definition.specs.Numbers.{little_endian, complement};
ghost use Rattle.memory_definition.specs.Forms as Forms;
ghost use Rattle.memory_definition.specs.Forms.{held, file_characters};
ghost use Rattle.memory_definition.specs.Memory.{size};
ghost use Rattle.memory_forms.specs.Cell.{cell_of};
ghost use Rattle.memory_bytes.specs.Flipped.{Within};

use crate::number::{put_flipped, put_number, put_zeros};
use crate::string::put_string;
use definition::records::{Constant, Shape};
use memory_definition::form::Form;
use memory_forms::form::form_of;
use memory_forms::held::constant_on;
use memory_forms::members::member_place;
use ranges::range;
use reals::narrow::narrow;
use records::source::Source;
use tree::node::Node;

// A number of so many bits, in two's complement.
fn put_integer(bytes: &mut [u8], at: usize, bits: u32, c: Constant) -> usize
    requires { Within bits c × (at + bits / 8 ≤ length bytes.old) }
    ensures { Puts (little_endian (bits / 8) (complement bits c)) bytes.old at result bytes.new }
{
    let count = (bits / 8) as usize;
    let size = range::size(c);
    if c.sign == 1 {
        return put_flipped(bytes, at, size - 1, count);
    }
    put_number(bytes, at, size, count)
}

pub fn put_cell(bytes: &mut [u8], at: usize, file: &Source<'_>, shape: Shape, node: Node) -> usize
    requires { (held file.now (cell_of shape node) ≡ true) × (at + size file.now (cell_of shape node) ≤ length bytes.old) }
    ensures { Puts (Forms.bytes file.now (file_characters file.now) (cell_of shape node)) bytes.old at result bytes.new }
{
    let value = node.value;
    match form_of(file, shape, value.kind) {
        Form::Head => at,
        Form::Null => put_zeros(bytes, at, 4),
        Form::Bool => put_number(bytes, at, value.low as u64, 1),
        Form::Number {
            signed: _,
            bits,
            kind: _,
            width: _,
        } => put_integer(bytes, at, bits, constant_on(node)),
        Form::Real => put_number(bytes, at, narrow(range::size(constant_on(node))) as u64, 4),
        Form::LongReal => put_number(bytes, at, range::size(constant_on(node)), 8),
        Form::String { most, width } => {
            put_string(bytes, at, file, most, width, value.low, value.high)
        }
        Form::Enumeration { first, count } => {
            let place = member_place(file, value.low, first, count).unwrap_or(0);
            put_number(bytes, at, place as u64, 2)
        }
        Form::Nothing => at,
    }
}
