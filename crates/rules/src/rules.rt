// Refusals 3 and 4 at one record: the rule of its section, read from its words.
ghost use Rattle.std.specs.Prelude.{◌≡◌, ◌<◌};
ghost use Rattle.rules.specs.Rules.{plain_rule, point_rule};

use crate::inside::{link_in, number_in};
use crate::points::{
    constant_points, entry_points, expression_points, initializer_points, shape_points, type_points,
};
use definition::layout::{
    BLOCK_FIELDS, CHARACTERS, CONSTANTS, DIMENSIONS, ELEMENTS, ENTRIES, EXPRESSIONS, INITIALIZERS,
    MEMBERS, SETTINGS, SHAPE_FIELDS, SHAPES, TYPES, VARIABLES,
};
use plain::words::{
    block_field_plain, constant_plain, dimension_plain, entry_plain, expression_plain,
    initializer_plain, is_name, shape_field_plain, shape_plain, type_plain,
};
use records::source::Source;

// ---- 3: a word has a value that its record does not allow
#[tactic(auto, unfolding(crate::specs::Rules::plain_rule, definition::specs::Accept::plain_rules))]
fn shape_words(file: &Source<'_>, n: u32) -> bool
    ensures { result ≡ plain_rule file.now 1 n }
{
    let [kind, a, b, c, d] = file.words_from::<5>(SHAPES, n, 0);
    shape_plain(kind, a, b, c, d)
}

#[tactic(auto, unfolding(crate::specs::Rules::plain_rule, definition::specs::Accept::plain_rules))]
fn type_words(file: &Source<'_>, n: u32) -> bool
    ensures { result ≡ plain_rule file.now 5 n }
{
    let [kind, named, start, first, many] = file.words_from::<5>(TYPES, n, 4);
    type_plain(kind, named, start, first, many)
}

#[tactic(auto, unfolding(crate::specs::Rules::plain_rule, definition::specs::Accept::plain_rules))]
fn initializer_words(file: &Source<'_>, n: u32) -> bool
    ensures { result ≡ plain_rule file.now 9 n }
{
    let [kind, named, element, value, first, many, length, width] = file.words_from::<8>(
        INITIALIZERS,
        n,
        0,
    );
    initializer_plain(kind, named, element, value, first, many, length, width)
}

#[tactic(auto, unfolding(crate::specs::Rules::plain_rule, definition::specs::Accept::plain_rules))]
fn entry_words(file: &Source<'_>, n: u32) -> bool
    ensures { result ≡ plain_rule file.now 10 n }
{
    let [kind, _, a, b] = file.words_from::<4>(ENTRIES, n, 0);
    entry_plain(kind, a, b)
}

#[tactic(auto, unfolding(crate::specs::Rules::plain_rule, definition::specs::Accept::plain_rules))]
fn constant_words(file: &Source<'_>, n: u32) -> bool
    ensures { result ≡ plain_rule file.now 12 n }
{
    let [kind, sign, low, high, width] = file.words_from::<5>(CONSTANTS, n, 0);
    constant_plain(kind, sign, low, high, width)
}

// A section that holds one word or two of a record to a rule has no function of its own.
#[tactic(auto, unfolding(crate::specs::Rules::plain_rule, definition::specs::Accept::plain_rules))]
pub fn plain_rule(file: &Source<'_>, section: usize, n: u32) -> bool
    ensures { result ≡ plain_rule file.now section n }
{
    match section {
        SETTINGS => file.word(SETTINGS, n, 0) <= 65535,
        SHAPES => shape_words(file, n),
        MEMBERS => is_name(file.word(MEMBERS, n, 0)),
        SHAPE_FIELDS => {
            shape_field_plain(file.word(SHAPE_FIELDS, n, 0), file.word(SHAPE_FIELDS, n, 2))
        }
        DIMENSIONS => dimension_plain(file.word(DIMENSIONS, n, 0), file.word(DIMENSIONS, n, 1)),
        TYPES => type_words(file, n),
        BLOCK_FIELDS => {
            block_field_plain(file.word(BLOCK_FIELDS, n, 0), file.word(BLOCK_FIELDS, n, 2))
        }
        ELEMENTS => is_name(file.word(ELEMENTS, n, 0)),
        VARIABLES => file.word(VARIABLES, n, 1) <= 5,
        INITIALIZERS => initializer_words(file, n),
        ENTRIES => entry_words(file, n),
        EXPRESSIONS => expression_plain(file.word(EXPRESSIONS, n, 0), file.word(EXPRESSIONS, n, 1)),
        CONSTANTS => constant_words(file, n),
        CHARACTERS => true,
        _ => false,
    }
}

// ---- 4: a used number, link or run points outside its section or at a record not allowed there
#[tactic(auto, unfolding(crate::specs::Rules::point_rule, definition::specs::Accept::point_rules))]
fn shape_links(file: &Source<'_>, n: u32) -> bool
    ensures { result ≡ point_rule file.now 1 n }
{
    let [kind, a, b, c, d] = file.words_from::<5>(SHAPES, n, 0);
    shape_points(file, n, kind, a, b, c, d)
}

#[tactic(auto, unfolding(crate::specs::Rules::point_rule, definition::specs::Accept::point_rules))]
fn variable_links(file: &Source<'_>, n: u32) -> bool
    ensures { result ≡ point_rule file.now 8 n }
{
    link_in(file, TYPES, file.word(VARIABLES, n, 2))
        & number_in(file, INITIALIZERS, file.word(VARIABLES, n, 3))
}

#[tactic(auto, unfolding(crate::specs::Rules::point_rule, definition::specs::Accept::point_rules))]
fn entry_links(file: &Source<'_>, n: u32) -> bool
    ensures { result ≡ point_rule file.now 10 n }
{
    let [kind, _, a, b] = file.words_from::<4>(ENTRIES, n, 0);
    entry_points(file, n, kind, a, b)
}

#[tactic(auto, unfolding(crate::specs::Rules::point_rule, definition::specs::Accept::point_rules))]
fn expression_links(file: &Source<'_>, n: u32) -> bool
    ensures { result ≡ point_rule file.now 11 n }
{
    let [kind, a] = file.words_from::<2>(EXPRESSIONS, n, 0);
    expression_points(file, n, kind, a)
}

#[tactic(auto, unfolding(crate::specs::Rules::point_rule, definition::specs::Accept::point_rules))]
fn constant_links(file: &Source<'_>, n: u32) -> bool
    ensures { result ≡ point_rule file.now 12 n }
{
    let [kind, _, low, high] = file.words_from::<4>(CONSTANTS, n, 0);
    constant_points(file, kind, low, high)
}

#[tactic(auto, unfolding(crate::specs::Rules::point_rule, definition::specs::Accept::point_rules))]
pub fn point_rule(file: &Source<'_>, section: usize, n: u32) -> bool
    ensures { result ≡ point_rule file.now section n }
{
    match section {
        SETTINGS => true,
        SHAPES => shape_links(file, n),
        MEMBERS => true,
        SHAPE_FIELDS => number_in(file, SHAPES, file.word(SHAPE_FIELDS, n, 1)),
        DIMENSIONS => true,
        TYPES => type_points(file, n),
        BLOCK_FIELDS => link_in(file, TYPES, file.word(BLOCK_FIELDS, n, 1)),
        ELEMENTS => number_in(file, INITIALIZERS, file.word(ELEMENTS, n, 1)),
        VARIABLES => variable_links(file, n),
        INITIALIZERS => initializer_points(file, n),
        ENTRIES => entry_links(file, n),
        EXPRESSIONS => expression_links(file, n),
        CONSTANTS => constant_links(file, n),
        CHARACTERS => true,
        _ => false,
    }
}
