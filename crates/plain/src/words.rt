// Refusal 3: whether a record's words, used numbers, links and runs aside, have values that their kind allows. Pure functions on plain words.
// The tests are joined by `&` and `|`: each costs less than a branch, and an accepted file passes all of them.
ghost use Rattle.std.specs.Prelude.{◌≡◌, not, ◌&&◌, ◌||◌, [], ◌∷◌, ◌==◌};
ghost use Rattle.definition.specs.Base.{unused, inline};
ghost use Rattle.definition.specs.Accept as Accept;

use definition::layout::INLINE;

// Unused words are 0.
fn unused(words: &[u32]) -> bool
    ensures { result ≡ unused words.now }
{
    words.iter().all(|w| *w == 0)
}

#[tactic(auto, unfolding(definition::specs::Accept::is_name))]
pub fn is_name(w: u32) -> bool
    ensures { result ≡ Accept.is_name w }
{
    w != 0
}

#[tactic(auto, unfolding(definition::specs::Accept::is_bits))]
fn is_bits(w: u32) -> bool
    ensures { result ≡ Accept.is_bits w }
{
    (w == 8) | (w == 16) | (w == 32) | (w == 64)
}

// Two's complement words are in order where they are with 2 ^ 31 added.
#[tactic(auto, unfolding(definition::specs::Accept::biased))]
pub fn biased(w: u32) -> u32
    ensures { result ≡ Accept.biased w }
{
    std::num::wrapping_add_u32(w, 2147483648)
}

#[tactic(auto, unfolding(definition::specs::Accept::shape_plain))]
pub fn shape_plain(kind: u32, a: u32, b: u32, c: u32, d: u32) -> bool
    ensures { result ≡ Accept.shape_plain kind a b c d }
{
    match kind {
        0 => unused(&[a, b, c, d]),
        1..=8 => is_bits(a) & unused(&[b, c, d]),
        9 => (b <= 1) & unused(&[c, d]),
        10 => true,
        11 => unused(&[c, d]),
        12..=13 => unused(&[d]),
        14..=15 => is_name(a) & unused(&[b, c, d]),
        16 => unused(&[b, c, d]),
        _ => false,
    }
}

#[tactic(auto, unfolding(definition::specs::Accept::shape_field_plain))]
pub fn shape_field_plain(name: u32, default: u32) -> bool
    ensures { result ≡ Accept.shape_field_plain name default }
{
    is_name(name) & (default <= 1)
}

#[tactic(auto, unfolding(definition::specs::Accept::dimension_plain))]
pub fn dimension_plain(lower: u32, upper: u32) -> bool
    ensures { result ≡ Accept.dimension_plain lower upper }
{
    biased(lower) <= biased(upper)
}

#[tactic(auto, unfolding(definition::specs::Accept::type_plain))]
pub fn type_plain(kind: u32, named: u32, start: u32, first: u32, many: u32) -> bool
    ensures { result ≡ Accept.type_plain kind named start first many }
{
    match kind {
        0 => unused(&[named, start, first, many]),
        1 => unused(&[named, first, many]),
        2 => unused(&[first, many]),
        3 => unused(&[named, first, many]),
        4 => unused(&[start]),
        5 => unused(&[named, start]),
        6 => unused(&[start, first, many]),
        7 => unused(&[start, first, many]),
        8 => unused(&[start, first, many]),
        9 => unused(&[named, start]),
        _ => false,
    }
}

#[tactic(auto, unfolding(definition::specs::Accept::block_field_plain))]
pub fn block_field_plain(name: u32, kind: u32) -> bool
    ensures { result ≡ Accept.block_field_plain name kind }
{
    is_name(name) & (kind <= 3)
}

// In an array's initializer an element type stands only where the named type is inline.
fn array_named(named: u32, element: u32) -> bool
    ensures { result ≡ (named == inline) || (element == 0) }
{
    (named == INLINE) | (element == 0)
}

#[tactic(auto, unfolding(definition::specs::Accept::initializer_plain))]
pub fn initializer_plain(
    kind: u32,
    named: u32,
    element: u32,
    value: u32,
    first: u32,
    many: u32,
    length: u32,
    width: u32,
) -> bool
    ensures { result ≡ Accept.initializer_plain kind named element value first many length width }
{
    let none = unused(&[element, value, first, many, length, width]);
    let valued = unused(&[element, first, many, length, width]);
    let listed = unused(&[element, value, length, width]);
    match kind {
        0..=1 => none,
        2..=3 => valued,
        4 => unused(&[element, first, many]) & (width <= 1),
        5..=6 => valued,
        7..=8 => listed,
        9 => unused(&[value, length, width]) & array_named(named, element),
        10 => (named == 0) & valued,
        11 => valued,
        12..=14 => none,
        _ => false,
    }
}

#[tactic(auto, unfolding(definition::specs::Accept::entry_plain))]
pub fn entry_plain(kind: u32, a: u32, b: u32) -> bool
    ensures { result ≡ Accept.entry_plain kind a b }
{
    match kind {
        0 => unused(&[b]),
        1 => is_name(a),
        2..=3 => true,
        4 => unused(&[b]),
        5 => unused(&[a, b]),
        6 => true,
        _ => false,
    }
}

#[tactic(auto, unfolding(definition::specs::Accept::expression_plain))]
pub fn expression_plain(kind: u32, a: u32) -> bool
    ensures { result ≡ Accept.expression_plain kind a }
{
    match kind {
        0..=3 => true,
        4..=6 => unused(&[a]),
        _ => false,
    }
}

// Sign 1 not with size 0.
fn signed(sign: u32, low: u32, high: u32) -> bool
    ensures { result ≡ (sign == 0) || (sign == 1 && not (unused (low ∷ high ∷ []))) }
{
    (sign == 0) | ((sign == 1) & !unused(&[low, high]))
}

#[tactic(auto, unfolding(definition::specs::Accept::constant_plain))]
pub fn constant_plain(kind: u32, sign: u32, low: u32, high: u32, width: u32) -> bool
    ensures { result ≡ Accept.constant_plain kind sign low high width }
{
    match kind {
        0 => (low <= 1) & unused(&[sign, high, width]),
        1 => signed(sign, low, high) & unused(&[width]),
        2..=3 => unused(&[sign, width]),
        4 => signed(sign, low, high) & (width <= 1),
        5..=8 => (sign == 0) & (width <= 1),
        _ => false,
    }
}
