// Reading a sheet: refusal 11, and where its sections begin.
#![tactic(auto, using(crate::proofs::Finding::finds))]

ghost use Rattle.std.specs.Prelude.{◌≡◌};
ghost use Rattle.sheet_lines.specs.Found.{found_of};

use crate::ends::{Form, section_end};
use definition::layout::{TYPES, VARIABLES};
use records::source::Source;

// Where the counts of the second and the third section stand. The first section begins at 0, and each first line stands behind its section's count.
#[derive(Clone, Copy)]
pub struct Lines {
    pub variables: usize,
    pub completed: usize,
}

// Where a sheet's sections begin, if its words are its three sections: nothing follows the third.
pub fn find_lines(file: &Source<'_>, sheet: &[u32]) -> Option<Lines>
    ensures { result ≡ found_of file.now sheet.now }
{
    let types = file.count(TYPES);
    let many = file.count(VARIABLES);
    let variables = section_end(sheet, Form::Types, types, 0)?;
    let completed = section_end(sheet, Form::Variables, many, variables)?;
    let end = section_end(sheet, Form::Completed, many, completed)?;
    if end == sheet.len() {
        return Some(Lines {
            variables,
            completed,
        });
    }
    None
}
