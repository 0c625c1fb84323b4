// The variable lines and the completed lines of a sheet, in step: a variable's tree is built once, compared, completed in place and compared again.
#![tactic(auto, using(crate::proofs::Looping::pairing))]

ghost use Rattle.std.specs.Prelude.{◌≡◌, ◌&&◌, ◌<◌, length};
ghost use Rattle.definition.specs.Layout as Layout;
ghost use Rattle.std.specs.Prelude.{Some};
ghost use Rattle.sheet_lines.specs.declared.ends.Form.TheVariants as form;
ghost use Rattle.sheet_lines.specs.Ends.{line_end};
ghost use Rattle.sheet_lines.specs.Found.{found_of};
ghost use Rattle.definition.specs.Starting.{declaration};
ghost use Rattle.definition.specs.Tree.{flatten};
ghost use Rattle.build.specs.Built.{index_in, Builds};
ghost use Rattle.sheet.specs.Checks.{Checks};
ghost use Rattle.sheet_lines.specs.Judged.{variable_at, completed_at, variables_right};

use crate::same::{built_same, completion_same};
use build::built::{INDEX_AT, Unbuilt};
use build::known::Known;
use definition::layout::VARIABLES;
use driver::work::variable;
use records::file::File;
use sheet_lines::ends::Form;
use sheet_lines::find::Lines;
use sheet_lines::next::next_line;

// What a variable's declaration gives, where types start as the sheet's lines say.
fn variable_built(
    file: &File<'_>,
    known: &[u32],
    sheet: &[u32],
    v: u32,
    room: &mut [u32],
) -> Result<usize, Unbuilt>
    requires { Checks file.now.source known.now sheet.now (length room.old) × (v < Layout.count file.now.source Layout.variables) }
    ensures { Builds file.now.source (index_in known.now) sheet.now flatten (declaration file.now.source v) 0 room.old result room.new }
{
    let read = Known::new(file, known, &known[INDEX_AT..], sheet);
    variable(&read, v, room)
}

// The two lines of one variable.
#[tactic(auto, using(crate::proofs::Telling::telling))]
fn variable_same(
    file: &File<'_>,
    known: &[u32],
    sheet: &[u32],
    v: u32,
    at: usize,
    end: usize,
    from: usize,
    stop: usize,
    room: &mut [u32],
) -> bool
    requires { Checks file.now.source known.now sheet.now (length room.old) × (v < Layout.count file.now.source Layout.variables) × (line_end form.Variables sheet.now at ≡ Some end) × (line_end form.Completed sheet.now from ≡ Some stop) }
    ensures { result ≡ variable_at file.now.source sheet.now v at end && completed_at file.now.source sheet.now v from stop }
{
    let built = variable_built(file, known, sheet, v, room);
    built_same(sheet, at, end, built, &room[..])
        && completion_same(&file.source, v, sheet, from, stop, built, room)
}

// `lines`: where the counts of the two sections stand.
pub fn variables_right(
    file: &File<'_>,
    known: &[u32],
    sheet: &[u32],
    lines: Lines,
    room: &mut [u32],
) -> bool
    requires { Checks file.now.source known.now sheet.now (length room.old) × (found_of file.now.source sheet.now ≡ Some lines) }
    ensures { result ≡ variables_right file.now.source sheet.now lines.variables lines.completed }
{
    let many = file.source.count(VARIABLES);
    let mut at = lines.variables + 1;
    let mut from = lines.completed + 1;
    for v in 0..many {
        let end = next_line(sheet, Form::Variables, at);
        let stop = next_line(sheet, Form::Completed, from);
        if !variable_same(file, known, sheet, v, at, end, from, stop, room) {
            return false;
        }
        at = end;
        from = stop;
    }
    true
}
