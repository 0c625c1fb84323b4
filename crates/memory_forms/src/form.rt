// Which form a node has, and how many bytes.
#![tactic(auto, using(crate::proofs::Forming::forming))]

ghost use Rattle.std.specs.Prelude.{◌≡◌, ◌*◌, ◌^◌, ◌≤◌, eqb};
ghost use Rattle.definition.specs.Base.{pick};
ghost use Rattle.definition.specs.Scalar as scalar;
ghost use Rattle.definition.specs.Ask.{result_of};
ghost use Rattle.memory_definition.specs.declared.form.Form.TheVariants as form;
ghost use Rattle.memory_definition.specs.Numbers.{character_bytes};
ghost use Rattle.memory_definition.specs.Forms.{as_integer, as_text, stored_by, stored_up_to, is_head, form_at, size_as};

use definition::layout::{SETTINGS, SHAPES};
use definition::records::Shape;
use memory_definition::form::Form;
use records::source::Source;
use scalar::string::max_length;

// A subrange stands as its base does, where that is an integer.
fn as_integer(base: Form) -> Form
    ensures { result ≡ as_integer base }
{
    let Form::Number {
        signed,
        bits,
        kind,
        width,
    } = base
    else {
        return Form::Nothing;
    };
    if kind == 1 {
        return Form::Number {
            signed,
            bits,
            kind,
            width,
        };
    }
    Form::Nothing
}

fn as_text(length: Option<u32>, width: u32) -> Form
    ensures { result ≡ as_text (result_of length) width }
{
    match length {
        Some(most) => Form::String { most, width },
        None => Form::Nothing,
    }
}

fn number(signed: bool, bits: u32, kind: u32) -> Form
    ensures { result ≡ form.Number signed bits kind 0 }
{
    Form::Number {
        signed,
        bits,
        kind,
        width: 0,
    }
}

// A time or date is long in 64 bits.
fn temporal(signed: bool, bits: u32, kind: u32) -> Form
    ensures { result ≡ form.Number signed bits kind (scalar.long bits) }
{
    if bits == 64 {
        return Form::Number {
            signed,
            bits,
            kind,
            width: 1,
        };
    }
    number(signed, bits, kind)
}

fn real(bits: u32) -> Form
    ensures { result ≡ pick (eqb bits 64) form.LongReal form.Real }
{
    if bits == 64 {
        return Form::LongReal;
    }
    Form::Real
}

// By a shape that is no subrange.
fn own_form(file: &Source<'_>, shape: Shape) -> Form
    ensures { result ≡ stored_by file.now (λ base. form.Nothing) shape }
{
    match shape {
        Shape::Bool => Form::Bool,
        Shape::Int { bits } => number(true, bits, 1),
        Shape::UInt { bits } => number(false, bits, 1),
        Shape::Real { bits } => real(bits),
        Shape::Bytes { bits } => number(false, bits, 1),
        Shape::Time { bits } => temporal(true, bits, 4),
        Shape::Date { bits } => temporal(false, bits, 6),
        Shape::TimeOfDay { bits } => temporal(false, bits, 5),
        Shape::DateAndTime { bits } => temporal(false, bits, 7),
        Shape::String { length, width } => {
            as_text(max_length(length, file.word(SETTINGS, 0, 0)), width)
        }
        Shape::Enumeration {
            first,
            count,
            default: _,
            underlying: _,
        } => Form::Enumeration { first, count },
        Shape::Reference { .. } => Form::Null,
        _ => Form::Nothing,
    }
}

// By any shape: a base has a lower shape.
fn stored_up_to(file: &Source<'_>, left: usize, shape: Shape) -> Form
    ensures { result ≡ stored_up_to file.now left shape }
{
    if left == 0 {
        return Form::Nothing;
    }
    let Shape::Subrange {
        base,
        least: _,
        greatest: _,
    } = shape
    else {
        return own_form(file, shape);
    };
    let below = file.shape(base);
    as_integer(stored_up_to(file, left - 1, below))
}

#[tactic(auto, using(crate::proofs::Forming::forming), unfolding(memory_definition::specs::Forms::is_head))]
fn is_head(kind: u32) -> bool
    ensures { result ≡ is_head kind }
{
    (kind == 13) | (kind == 14)
}

// How a node of a kind stands in a place of a shape.
pub fn form_of(file: &Source<'_>, shape: Shape, kind: u32) -> Form
    ensures { result ≡ form_at file.now shape kind }
{
    if is_head(kind) {
        return Form::Head;
    }
    if kind == 10 {
        return Form::Null;
    }
    let left = file.count(SHAPES) as usize + 1;
    stored_up_to(file, left, shape)
}

pub fn character_size(width: u32) -> usize
    ensures is { result ≡ character_bytes width }
    ensures small { result ≤ 2 }
{
    if width == 0 {
        return 1;
    }
    2
}

// How many bytes so many characters have.
pub fn text_size(width: u32, many: u32) -> usize
    ensures is { result ≡ character_bytes width * many }
    ensures small { result ≤ 2 ^ 33 }
{
    character_size(width) * (many as usize)
}

// How many bytes a form has.
pub fn size_of(form: Form) -> usize
    ensures is { result ≡ size_as form }
    ensures small { result ≤ 2 ^ 34 }
{
    match form {
        Form::Head => 0,
        Form::Null => 4,
        Form::Bool => 1,
        Form::Number {
            signed: _,
            bits,
            kind: _,
            width: _,
        } => (bits / 8) as usize,
        Form::Real => 4,
        Form::LongReal => 8,
        Form::String { most, width } => 4 + text_size(width, most),
        Form::Enumeration { .. } => 2,
        Form::Nothing => 0,
    }
}
