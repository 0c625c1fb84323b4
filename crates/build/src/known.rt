// What every building function reads.
#![tactic(auto)]

ghost use Rattle.std.specs.Prelude.{◌≡◌, ◌+◌, ◌-◌, ◌^◌, ◌<◌, ◌≤◌, min, length};
ghost use Rattle.definition.specs.Accept.{elements_of};
ghost use Rattle.definition.specs.Ask.{result_of, type_default};
ghost use Rattle.definition.specs.Layout as Layout;
ghost use Rattle.definition.specs.Layout.{constants, expressions, shapes};
ghost use Rattle.definition.specs.Places.{element_place, field_place, leaf_place, place_of, variable_place};
ghost use Rattle.definition.specs.Records.{constant_at, declaration_at, entry_at, expression_at, initializer_at};
ghost use Rattle.definition.specs.Scalar.{as_tree, built_in, constant_value, enumerated_value, expression_value};
ghost use Rattle.definition.specs.Syntax.{expr_at};
ghost use Rattle.definition.specs.Tree.{flatten, tree_words};
ghost use Rattle.laws.specs.Used.{IsType};
ghost use Rattle.build.specs.Built.{Builds, Ready};
ghost use Rattle.build.specs.Parts.{is_listed, Spreads, WholeAt};
ghost use Rattle.places.specs.Found.{block_run};
ghost use Rattle.places.specs.Inside.{PlaceIn, ShapeIn};

use crate::built::Unbuilt;
use crate::{fields, remembered, spread};
use definition::records::{Constant, Declaration, Entry, Expression, Initializer, Place, Shape};
use places::block::Run;
use places::{block, expressions, field, place, values};
use records::file::File;
use std::marker::Model;

// An accepted file, the classes of its shapes, the index of remembered types, and the store of their lines. Contracts see their words.
#[derive(Drop)]
pub struct Known<'a> {
    file: &'a File<'a>,
    classes: &'a [u32],
    index: &'a [u32],
    store: &'a [u32],
}

impl<'a> Model for Known<'a> {
    ghost use Rattle.build.specs.Known.{Known};
    ghost use Rattle.build.specs.Built.{Ready};

    ghost Value = { Known };

    ghost view = { λ k. record { file = k.file.now.source; accepted = k.file.now.accepted; classes = k.classes.now; index = k.index.now; store = k.store.now } };

    ghost invariant = { λ k. Ready k.file.now.source k.classes.now k.index.now k.store.now };
}

impl<'a> Known<'a> {
    pub fn new(
        file: &'a File<'a>,
        classes: &'a [u32],
        index: &'a [u32],
        store: &'a [u32],
    ) -> Known<'a>
        requires { Ready file.now.source classes.now index.now store.now }
        ensures { (result.file ≡ file.now.source) × (result.classes ≡ classes.now) × (result.index ≡ index.now) × (result.store ≡ store.now) }
    {
        Known {
            file,
            classes,
            index,
            store,
        }
    }

    // The file, where no building function has a name for what is asked of it.
    pub fn file(&self) -> &'a File<'a>
        ensures is { result.now.source ≡ self.now.file }
        ensures ready { Ready self.now.file self.now.classes self.now.index self.now.store }
    {
        self.file
    }

    // Does nothing: a proof that calls none of the others learns here what is known of the four parts.
    pub fn ready(&self)
        ensures { Ready self.now.file self.now.classes self.now.index self.now.store }
    {
        let _ = &self.file;
    }

    pub fn classes(&self) -> &'a [u32]
        ensures { result.now ≡ self.now.classes }
    {
        self.classes
    }

    pub fn index(&self) -> &'a [u32]
        ensures { result.now ≡ self.now.index }
    {
        self.index
    }

    pub fn store(&self) -> &'a [u32]
        ensures { result.now ≡ self.now.store }
    {
        self.store
    }

    // Word `place` of a record.
    pub fn word(&self, section: usize, number: u32, place: usize) -> u32
        requires { (section < 14) × (place < 16) }
        ensures { result ≡ Layout.word self.now.file section number place }
    {
        self.file.source.word(section, number, place)
    }

    pub fn entry(&self, e: u32) -> Entry
        ensures is { result ≡ entry_at self.now.file e }
        ensures ready { Ready self.now.file self.now.classes self.now.index self.now.store }
    {
        self.file.source.entry(e)
    }

    pub fn initializer(&self, i: u32) -> Initializer
        ensures is { result ≡ initializer_at self.now.file i }
        ensures ready { Ready self.now.file self.now.classes self.now.index self.now.store }
    {
        self.file.source.initializer(i)
    }

    pub fn declaration(&self, t: u32) -> Declaration
        ensures is { result ≡ declaration_at self.now.file t }
        ensures ready { Ready self.now.file self.now.classes self.now.index self.now.store }
    {
        self.file.source.declaration(t)
    }

    // An expression as it is written; `expression` is its value.
    pub fn expression_at(&self, x: u32) -> Expression
        ensures { result ≡ expression_at self.now.file x }
    {
        self.file.source.expression(x)
    }

    // The place of a type.
    pub fn place_of(&self, t: u32) -> Place
        requires { (t < 2 ^ 32 - 1) }
        ensures { result ≡ place_of self.now.file t }
    {
        place::place_of(&self.file.source, t)
    }

    // The place of a variable with its initializer, or none where its type is none of the file's.
    pub fn variable_place(&self, v: u32, i: u32) -> Option<Place>
        ensures { result_of result ≡ variable_place self.now.file v i }
    {
        field::variable_place(&self.file.source, v, i)
    }

    pub fn leaf_place(&self, place: Place) -> Place
        requires { PlaceIn self.now.file place }
        ensures { result ≡ leaf_place self.now.file place }
    {
        place::leaf_place(self.file, self.classes, place)
    }

    pub fn element_place(&self, place: Place, s: u32) -> Place
        requires { PlaceIn self.now.file place × (s < Layout.count self.now.file shapes) }
        ensures is { result ≡ element_place self.now.file place s }
        ensures ready { Ready self.now.file self.now.classes self.now.index self.now.store }
    {
        place::element_place(self.file, self.classes, place, s)
    }

    pub fn field_place(&self, place: Place, name: u32) -> Option<Place>
        requires { PlaceIn self.now.file place }
        ensures is { result_of result ≡ field_place self.now.file place name }
        ensures ready { Ready self.now.file self.now.classes self.now.index self.now.store }
    {
        field::field_place(self.file, self.classes, place, name)
    }

    // The run of a block's fields, or none where no block record is found.
    pub fn block_run(&self, place: Place) -> Option<Run>
        ensures { result ≡ block_run self.now.file place }
    {
        block::block_run(&self.file.source, place)
    }

    // The value of a shape without parts that nothing declares one for.
    pub fn built_in(&self, shape: Shape) -> Option<Constant>
        ensures { as_tree (result_of result) ≡ built_in self.now.file shape }
    {
        values::built_in(&self.file.source, shape)
    }

    // What a constant, an enumerated value and an expression give a place.
    pub fn constant_value(&self, shape: Shape, number: u32) -> Option<Constant>
        requires { ShapeIn self.now.file shape × (number < Layout.count self.now.file constants) }
        ensures { as_tree (result_of result) ≡ constant_value self.now.file shape (constant_at self.now.file number) }
    {
        values::constant_value(self.file, shape, number)
    }

    pub fn enumerated_value(&self, shape: Shape, value: u32, qualifier: u32) -> Option<Constant>
        requires { ShapeIn self.now.file shape }
        ensures { as_tree (result_of result) ≡ enumerated_value self.now.file shape value qualifier }
    {
        values::enumerated_value(self.file, shape, value, qualifier)
    }

    pub fn expression(&self, shape: Shape, x: u32) -> Option<Constant>
        requires { ShapeIn self.now.file shape × (x < Layout.count self.now.file expressions) }
        ensures { as_tree (result_of result) ≡ expression_value self.now.file shape (expr_at self.now.file x) }
    {
        expressions::expression(self.file, shape, x)
    }

    // Whether a field of a section is one of a structure's or a block's own.
    pub fn is_listed(&self, section: usize, k: u32) -> bool
        requires { section < 14 }
        ensures { result ≡ is_listed self.now.file section k }
    {
        fields::is_listed(&self.file.source, section, k)
    }

    // An element's value, which stands behind a head's place, for each element of an array of some dimensions.
    pub fn spread(
        &self,
        first: u32,
        many: u32,
        room: &mut [u32],
        at: usize,
        end: usize,
    ) -> Result<usize, Unbuilt>
        requires { WholeAt room.old (at + 6) end × (at + tree_words ≤ length room.old) }
        ensures { Spreads (elements_of self.now.file first many) at end room.old result room.new }
    {
        spread::spread(&self.file.source, first, many, room, at, end)
    }

    // The default of a type, as it is remembered, at `at` of the room.
    pub fn type_default(&self, t: u32, room: &mut [u32], at: usize) -> Result<usize, Unbuilt>
        requires { IsType self.now.file t × (at + tree_words ≤ length room.old) }
        ensures { Builds self.now.file self.now.index self.now.store flatten (type_default t) at room.old result room.new }
    {
        remembered::type_default(self.index, self.store, t, room, at)
    }
}
