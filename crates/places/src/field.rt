// Fields by their name, and variables (`field_place`, `declaration_place`).
#![tactic(auto, using(crate::proofs::field::Laws::laws))]

ghost use Rattle.std.specs.Prelude.{◌≡◌, ◌<◌};
ghost use Rattle.definition.specs.Base.{on_link};
ghost use Rattle.definition.specs.Layout as Layout;
ghost use Rattle.definition.specs.Layout.{shapes, variables};
ghost use Rattle.definition.specs.Places.{field_declaration, structure_field_place, field_place, variable_place};
ghost use Rattle.laws.specs.Links.{Link};
ghost use Rattle.laws.specs.Used.{IsType};
ghost use Rattle.shapes.specs.Classes.{Classes};
ghost use Rattle.definition.specs.Ask.{result_of};
ghost use Rattle.places.specs.Found.{linked_place, structure_field, block_field, string_of};
ghost use Rattle.places.specs.Inside.{PlaceIn, FieldsIn};
ghost use Rattle.places.specs.Links.{link_of};

use crate::block::{Run, block_field_type};
use crate::declared::{declared_element, declared_type, field_declaration};
use crate::named::{first_named, led_to, linked};
use crate::place::{bare, place_of, typed_place};
use definition::layout::{INITIALIZERS, INLINE, SHAPE_FIELDS, VARIABLES};
use definition::records::{Place, Shape};
use records::file::File;
use records::source::Source;

// The initializer that declares a field of a place.
fn place_declaration(file: &File<'_>, place: Place, name: u32) -> Option<u32>
    requires { PlaceIn file.now.source place }
    ensures { link_of result ≡ on_link place.id 0 (field_declaration file.now.source name) }
{
    let t = led_to(place.id)?;
    field_declaration(file, name, t)
}

// A field, of the shape s, of a structure.
fn structure_field_place(file: &File<'_>, classes: &[u32], place: Place, name: u32, s: u32) -> Place
    requires { Classes file.now.source classes.now × PlaceIn file.now.source place × (s < Layout.count file.now.source shapes) }
    ensures { result ≡ structure_field_place file.now.source place name s }
{
    let Some(i) = place_declaration(file, place, name) else {
        return bare(file.source.shape(s));
    };
    let named = declared_type(&file.source, i);
    let element = declared_element(&file.source, i);
    typed_place(file, classes, s, named, element)
}

// A field of a structure whose fields are a run.
fn structure_field(
    file: &File<'_>,
    classes: &[u32],
    place: Place,
    run: Run,
    name: u32,
) -> Option<Place>
    requires { Classes file.now.source classes.now × PlaceIn file.now.source place × FieldsIn file.now.source run.first run.count }
    ensures { result_of result ≡ structure_field file.now.source place name run.first run.count }
{
    let field = first_named(&file.source, SHAPE_FIELDS, name, run)?;
    let s = file.source.word(SHAPE_FIELDS, field, 1);
    Some(structure_field_place(file, classes, place, name, s))
}

// A field of a function block.
fn block_field(file: &File<'_>, id: u32, name: u32) -> Option<Place>
    requires { Link (IsType file.now.source) id }
    ensures { result_of result ≡ block_field file.now.source id name }
{
    let t = led_to(id)?;
    let field = block_field_type(file, t, name)?;
    Some(place_of(&file.source, field))
}

// A field of a structure or a function block, by its name.
pub fn field_place(file: &File<'_>, classes: &[u32], place: Place, name: u32) -> Option<Place>
    requires { Classes file.now.source classes.now × PlaceIn file.now.source place }
    ensures { result_of result ≡ field_place file.now.source place name }
{
    let shape = place.shape;
    match shape {
        Shape::Structure { first, count } => {
            structure_field(file, classes, place, Run { first, count }, name)
        }
        Shape::FunctionBlock { name: _ } => block_field(file, place.id, name),
        _ => None,
    }
}

// A string variable has the length and the width that its initializer states, none where the length is no integer.
fn string_place(length: u32, width: u32) -> Option<Place>
    ensures { result_of result ≡ string_of length width }
{
    if length == INLINE {
        return None;
    }
    Some(bare(Shape::String { length, width }))
}

// The place of a variable of a type.
fn type_place(file: &Source<'_>, v: u32) -> Option<Place>
    ensures { result_of result ≡ linked_place file.now (Layout.word file.now variables v 2) }
{
    let t = linked(file, VARIABLES, v, 2)?;
    Some(place_of(file, t))
}

// The place of the variable v with the initializer i: a string's comes from the initializer, any other's from its type.
pub fn variable_place(file: &Source<'_>, v: u32, i: u32) -> Option<Place>
    ensures { result_of result ≡ variable_place file.now v i }
{
    if file.word(INITIALIZERS, i, 0) != 4 {
        return type_place(file, v);
    }
    let length = file.word(INITIALIZERS, i, 6);
    let width = file.word(INITIALIZERS, i, 7);
    string_place(length, width)
}
