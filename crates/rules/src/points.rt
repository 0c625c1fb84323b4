// Refusal 4, third part: whether what a record points at is there and allowed, one function for each kind of record.
ghost use Rattle.std.specs.Prelude.{◌≡◌};
ghost use Rattle.definition.specs.Accept as Accept;
ghost use Rattle.rules.specs.Rules.{type_links, type_declared, initializer_value};

use crate::inside::{
    block_points, constant_in, enumerated_entry, link_in, link_to_constant, link_to_enumerated,
    link_to_reference, name_in, number_in, run_in, start_in,
};
use crate::runs::{array_run, fields_below, link_to_lower, member_run, run_below};
use definition::layout::{
    CHARACTERS, CONSTANTS, DIMENSIONS, ELEMENTS, ENTRIES, EXPRESSIONS, INITIALIZERS, MEMBERS,
    SHAPE_FIELDS, SHAPES, TYPES, VARIABLES,
};
use records::source::Source;

// Shapes point only to lower shapes.
#[tactic(auto, unfolding(definition::specs::Accept::shape_points))]
pub fn shape_points(file: &Source<'_>, n: u32, kind: u32, a: u32, b: u32, c: u32, d: u32) -> bool
    ensures { result ≡ Accept.shape_points file.now n kind a b c d }
{
    match kind {
        0..=9 => true,
        10 => run_in(file, MEMBERS, a, b) & (d <= n),
        11 => fields_below(file, n, a, b),
        12 => (a < n) & run_in(file, DIMENSIONS, b, c) & (c != 0),
        13 => (a < n) & constant_in(file, 1, b) & constant_in(file, 1, c),
        14..=15 => true,
        16 => a < n,
        _ => false,
    }
}

#[tactic(auto, unfolding(definition::specs::Accept::declaration_points))]
pub fn declaration_points(
    file: &Source<'_>,
    kind: u32,
    name: u32,
    start: u32,
    first: u32,
    many: u32,
) -> bool
    ensures { result ≡ Accept.declaration_points file.now kind name start first many }
{
    match kind {
        0 => true,
        1 => start_in(file, start),
        2 => name_in(file, true, name) & link_to_constant(file, 1, start),
        3 => link_to_constant(file, 8, start),
        4 => { name_in(file, true, name) & array_run(file, first, many) }
        5 => run_in(file, ELEMENTS, first, many),
        6 => name_in(file, false, name),
        7 => name_in(file, false, name),
        8 => name_in(file, false, name),
        9 => run_in(file, VARIABLES, first, many),
        _ => false,
    }
}

// The links of a type, its declaration aside.
#[tactic(auto, unfolding(crate::specs::Rules::type_links))]
fn type_links(file: &Source<'_>, t: u32) -> bool
    ensures { result ≡ type_links file.now t }
{
    number_in(file, SHAPES, file.word(TYPES, t, 0))
        & link_in(file, TYPES, file.word(TYPES, t, 1))
        & link_in(file, TYPES, file.word(TYPES, t, 2))
        & link_in(file, TYPES, file.word(TYPES, t, 3))
}

#[tactic(auto, unfolding(crate::specs::Rules::type_declared))]
fn type_declared(file: &Source<'_>, t: u32) -> bool
    ensures { result ≡ type_declared file.now t }
{
    let [kind, name, start, first, many] = file.words_from::<5>(TYPES, t, 4);
    declaration_points(file, kind, name, start, first, many)
}

#[tactic(auto, unfolding(crate::specs::Rules::type_declared, crate::specs::Rules::type_links, definition::specs::Accept::type_points))]
pub fn type_points(file: &Source<'_>, t: u32) -> bool
    ensures { result ≡ Accept.type_points file.now t }
{
    let [first, many] = file.words_from::<2>(TYPES, t, 9);
    type_links(file, t) & type_declared(file, t) & block_points(file, first, many)
}

#[tactic(auto, unfolding(definition::specs::Accept::value_points))]
pub fn value_points(file: &Source<'_>, kind: u32, value: u32, first: u32, many: u32) -> bool
    ensures { result ≡ Accept.value_points file.now kind value first many }
{
    match kind {
        0..=1 => true,
        2 => link_to_constant(file, 1, value),
        3 => link_in(file, CONSTANTS, value),
        4 => link_to_constant(file, 8, value),
        5..=6 => link_to_enumerated(file, value),
        7..=8 => member_run(file, first, many),
        9 => array_run(file, first, many),
        10 => link_to_reference(file, value),
        11 => link_in(file, CONSTANTS, value),
        12..=14 => true,
        _ => false,
    }
}

#[tactic(auto, unfolding(crate::specs::Rules::initializer_value))]
fn initializer_value(file: &Source<'_>, i: u32) -> bool
    ensures { result ≡ initializer_value file.now i }
{
    let [kind, _, _, value, first, many] = file.words_from::<6>(INITIALIZERS, i, 0);
    value_points(file, kind, value, first, many)
}

// Inline only in kinds 2 and 9.
#[tactic(auto, unfolding(crate::specs::Rules::initializer_value, definition::specs::Accept::initializer_points))]
pub fn initializer_points(file: &Source<'_>, i: u32) -> bool
    ensures { result ≡ Accept.initializer_points file.now i }
{
    let [kind, name, element] = file.words_from::<3>(INITIALIZERS, i, 0);
    name_in(file, (kind == 2) | (kind == 9), name)
        & link_in(file, TYPES, element)
        & initializer_value(file, i)
}

#[tactic(auto, unfolding(definition::specs::Accept::entry_points, definition::specs::Accept::lower_run))]
pub fn entry_points(file: &Source<'_>, e: u32, kind: u32, a: u32, b: u32) -> bool
    ensures { result ≡ Accept.entry_points file.now e kind a b }
{
    match kind {
        0 => number_in(file, CONSTANTS, a),
        1 => true,
        2 => array_run(file, a, b) & run_below(e, a, b),
        3 => member_run(file, a, b) & run_below(e, a, b),
        4 => number_in(file, EXPRESSIONS, a),
        5 => true,
        6 => link_to_lower(file, e, b),
        _ => false,
    }
}

// Parentheses and conversions point lower.
#[tactic(auto, unfolding(definition::specs::Accept::expression_points))]
pub fn expression_points(file: &Source<'_>, x: u32, kind: u32, a: u32) -> bool
    ensures { result ≡ Accept.expression_points file.now x kind a }
{
    match kind {
        0 => number_in(file, CONSTANTS, a),
        1 => enumerated_entry(file, a),
        2..=3 => a < x,
        4..=6 => true,
        _ => false,
    }
}

// Only a string points: at a run of characters.
#[tactic(auto, unfolding(definition::specs::Accept::constant_points))]
pub fn constant_points(file: &Source<'_>, kind: u32, low: u32, high: u32) -> bool
    ensures { result ≡ Accept.constant_points file.now kind low high }
{
    (kind != 8) | run_in(file, CHARACTERS, low, high)
}
