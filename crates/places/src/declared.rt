// What a structure's declaration says of a field, and the types that an initializer names (`alias_target`, `field_declaration`, `declared_ids`).
#![tactic(auto, using(crate::proofs::declared::Laws::laws))]

ghost use Rattle.std.specs.Prelude.{◌≡◌, ◌^◌, ◌<◌, eqb};
ghost use Rattle.definition.specs.Records.{declaration_kind};
ghost use Rattle.definition.specs.Places.{simple_target, alias_target, field_declaration, declared_type, declared_element};
ghost use Rattle.laws.specs.Used.{IsType};
ghost use Rattle.places.specs.Found.{declared_target, declared_structure, element_declaration};
ghost use Rattle.places.specs.Links.{link_of};

use crate::block::Run;
use crate::named::{first_named, led_to, linked};
use definition::layout::{ELEMENTS, INITIALIZERS, INLINE, TYPES};
use records::file::File;
use records::source::Source;

// What a simple declaration's function block or structure initializer names.
fn simple_target(file: &Source<'_>, i: u32) -> Option<u32>
    ensures { link_of result ≡ simple_target file.now i }
{
    match file.word(INITIALIZERS, i, 0) {
        7..=8 => linked(file, INITIALIZERS, i, 1),
        _ => None,
    }
}

// The type that a simple declaration's initializer names.
fn declared_target(file: &Source<'_>, t: u32) -> Option<u32>
    ensures { link_of result ≡ declared_target file.now t }
{
    if file.word(TYPES, t, 4) != 1 {
        return None;
    }
    let i = linked(file, TYPES, t, 6)?;
    simple_target(file, i)
}

// The type that an alias leads to.
pub fn alias_target(file: &Source<'_>, t: u32) -> Option<u32>
    ensures { link_of result ≡ alias_target file.now t }
{
    if let Some(base) = linked(file, TYPES, t, 1) {
        return Some(base);
    }
    declared_target(file, t)
}

// The initializer of the element of that name in a structure's declaration.
fn element_declaration(file: &File<'_>, name: u32, t: u32) -> Option<u32>
    requires { IsType file.now.source t × (declaration_kind file.now.source t ≡ 5) }
    ensures { link_of result ≡ element_declaration file.now.source name t }
{
    let run = Run {
        first: file.source.word(TYPES, t, 7),
        count: file.source.word(TYPES, t, 8),
    };
    let element = first_named(&file.source, ELEMENTS, name, run)?;
    Some(file.source.word(ELEMENTS, element, 1))
}

fn is_structure(file: &Source<'_>, t: u32) -> bool
    ensures { result ≡ eqb (declaration_kind file.now t) 5 }
{
    file.word(TYPES, t, 4) == 5
}

// The structure that aliases lead to from t.
#[tactic(auto, using(crate::proofs::declared::Laws::following))]
fn declared_structure(file: &File<'_>, t: u32) -> Option<u32>
    ensures { link_of result ≡ declared_structure file.now.source t }
{
    let most = file.declared + 1;
    let mut at = t;
    for _ in 0..most {
        if is_structure(&file.source, at) {
            return Some(at);
        }
        at = alias_target(&file.source, at)?;
    }
    None
}

// The initializer that the declaration of a field states.
#[tactic(auto, using(crate::proofs::declared::Laws::walking))]
pub fn field_declaration(file: &File<'_>, name: u32, t: u32) -> Option<u32>
    requires { IsType file.now.source t }
    ensures { link_of result ≡ field_declaration file.now.source name t }
{
    let structure = declared_structure(file, t)?;
    element_declaration(file, name, structure)
}

// The type that an initializer names.
pub fn declared_type(file: &Source<'_>, i: u32) -> Option<u32>
    ensures { link_of result ≡ declared_type file.now i }
{
    let named = file.word(INITIALIZERS, i, 1);
    if named == INLINE {
        return None;
    }
    led_to(named)
}

// The element type that an initializer names for an array spelled in place.
pub fn declared_element(file: &Source<'_>, i: u32) -> Option<u32>
    ensures is { link_of result ≡ declared_element file.now i }
    ensures near { link_of result < 2 ^ 32 }
{
    if file.word(INITIALIZERS, i, 1) == INLINE {
        return linked(file, INITIALIZERS, i, 2);
    }
    None
}
