// The type lines of a sheet, each compared with what its type's declaration and the other type lines give.
#![tactic(auto, using(crate::proofs::Looping::typing))]

ghost use Rattle.std.specs.Prelude.{◌≡◌, ◌<◌, length};
ghost use Rattle.definition.specs.Layout as Layout;
ghost use Rattle.std.specs.Prelude.{Some};
ghost use Rattle.sheet_lines.specs.declared.ends.Form.TheVariants as form;
ghost use Rattle.sheet_lines.specs.Ends.{line_end};
ghost use Rattle.definition.specs.Starting.{body};
ghost use Rattle.definition.specs.Tree.{flatten};
ghost use Rattle.build.specs.Built.{index_in, Builds};
ghost use Rattle.sheet.specs.Checks.{Checks};
ghost use Rattle.sheet_lines.specs.Judged.{type_at, types_right};

use crate::same::built_same;
use build::built::{INDEX_AT, Unbuilt};
use build::known::Known;
use definition::layout::TYPES;
use driver::work::work_out;
use records::file::File;
use sheet_lines::ends::Form;
use sheet_lines::next::next_line;

// What a type's declaration gives, where types start as the sheet's lines say.
fn type_built(
    file: &File<'_>,
    known: &[u32],
    sheet: &[u32],
    t: u32,
    room: &mut [u32],
) -> Result<usize, Unbuilt>
    requires { Checks file.now.source known.now sheet.now (length room.old) × (t < Layout.count file.now.source Layout.types) }
    ensures { Builds file.now.source (index_in known.now) sheet.now flatten (body file.now.source t) 0 room.old result room.new }
{
    let read = Known::new(file, known, &known[INDEX_AT..], sheet);
    work_out(&read, t, room)
}

// One type's line.
#[tactic(auto, using(crate::proofs::Telling::telling))]
fn type_same(
    file: &File<'_>,
    known: &[u32],
    sheet: &[u32],
    t: u32,
    at: usize,
    end: usize,
    room: &mut [u32],
) -> bool
    requires { Checks file.now.source known.now sheet.now (length room.old) × (t < Layout.count file.now.source Layout.types) × (line_end form.Types sheet.now at ≡ Some end) }
    ensures { result ≡ type_at file.now.source sheet.now t at end }
{
    let built = type_built(file, known, sheet, t, room);
    built_same(sheet, at + 1, end, built, &room[..])
}

pub fn types_right(file: &File<'_>, known: &[u32], sheet: &[u32], room: &mut [u32]) -> bool
    requires { Checks file.now.source known.now sheet.now (length room.old) }
    ensures { result ≡ types_right file.now.source sheet.now }
{
    let many = file.source.count(TYPES);
    let mut at: usize = 1;
    for t in 0..many {
        let end = next_line(sheet, Form::Types, at);
        if !type_same(file, known, sheet, t, at, end, room) {
            return false;
        }
        at = end;
    }
    true
}
