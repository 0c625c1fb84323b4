// Places by their type or their shape, and what an array of arrays is filled with (`place_of`, `typed_place`, `element_place` and the loop in `array`).
#![tactic(auto, using(crate::proofs::place::Laws::laws))]

ghost use Rattle.std.specs.Prelude.{◌≡◌, ◌-◌, ◌^◌, ◌<◌};
ghost use Rattle.definition.specs.Base.{on_link};
ghost use Rattle.definition.specs.Layout as Layout;
ghost use Rattle.definition.specs.Layout.{shapes};
ghost use Rattle.definition.specs.Records.{element_type};
ghost use Rattle.definition.specs.Places as Places;
ghost use Rattle.definition.specs.Places.{place_of, typed_place, element_place, leaf_place};
ghost use Rattle.laws.specs.Links.{Link};
ghost use Rattle.laws.specs.Used.{IsType};
ghost use Rattle.shapes.specs.Classes.{Classes};
ghost use Rattle.places.specs.Found.{own_link};
ghost use Rattle.places.specs.Inside.{PlaceIn};
ghost use Rattle.places.specs.Links.{link_of};

use crate::named::{led_to, link_to, linked};
use definition::layout::{SHAPES, TYPES};
use definition::records::{Place, Shape};
use records::file::File;
use records::source::Source;
use shapes::classes::same_shape;

// A value of a shape that has no type.
pub fn bare(shape: Shape) -> Place
    ensures { result ≡ Places.bare shape }
{
    Place {
        shape,
        id: 0,
        element: 0,
    }
}

// A value of the type t.
pub fn place_of(file: &Source<'_>, t: u32) -> Place
    requires { (t < 2 ^ 32 - 1) }
    ensures { result ≡ place_of file.now t }
{
    let shape = file.shape(file.word(TYPES, t, 0));
    Place {
        shape,
        id: t + 1,
        element: file.word(TYPES, t, 2),
    }
}

// The type is kept only where it has that very shape.
fn own_type(file: &File<'_>, classes: &[u32], s: u32, named: Option<u32>) -> Option<u32>
    requires { Classes file.now.source classes.now × (s < Layout.count file.now.source shapes) × Link (IsType file.now.source) (link_of named) }
    ensures is { link_of result ≡ own_link file.now.source s (link_of named) }
    ensures near { link_of result < 2 ^ 32 }
{
    let t = named?;
    let own = file.source.word(TYPES, t, 0);
    same_shape(file, classes, own, s).then_some(t)
}

// The element type of a type, if there is one.
fn element_of(file: &Source<'_>, of: Option<u32>) -> Option<u32>
    ensures is { link_of result ≡ on_link (link_of of) 0 (element_type file.now) }
    ensures near { link_of result < 2 ^ 32 }
{
    let t = of?;
    linked(file, TYPES, t, 2)
}

pub fn typed_place(
    file: &File<'_>,
    classes: &[u32],
    s: u32,
    named: Option<u32>,
    element: Option<u32>,
) -> Place
    requires { Classes file.now.source classes.now × (s < Layout.count file.now.source shapes) × Link (IsType file.now.source) (link_of named) × (link_of element < 2 ^ 32) }
    ensures { result ≡ typed_place file.now.source s (link_of named) (link_of element) }
{
    let own = own_type(file, classes, s, named);
    let other = element_of(&file.source, own);
    Place {
        shape: file.source.shape(s),
        id: link_to(own),
        element: link_to(element.or(other)),
    }
}

// An element, of the shape s, of an array.
pub fn element_place(file: &File<'_>, classes: &[u32], place: Place, s: u32) -> Place
    requires { Classes file.now.source classes.now × PlaceIn file.now.source place × (s < Layout.count file.now.source shapes) }
    ensures { result ≡ element_place file.now.source place s }
{
    let other = element_of(&file.source, led_to(place.id));
    let named = led_to(place.element).or(other);
    typed_place(file, classes, s, named, None)
}

// What an array of arrays is filled with: an element of its innermost arrays.
#[tactic(auto, using(crate::proofs::place::Laws::walking))]
pub fn leaf_place(file: &File<'_>, classes: &[u32], place: Place) -> Place
    requires { Classes file.now.source classes.now × PlaceIn file.now.source place }
    ensures { result ≡ leaf_place file.now.source place }
{
    let mut leaf = place;
    let many = file.source.count(SHAPES);
    for _ in 0..many {
        let shape = leaf.shape;
        let Shape::Array {
            element,
            first: _,
            count: _,
        } = shape
        else {
            return leaf;
        };
        leaf = element_place(file, classes, leaf, element);
    }
    leaf
}
