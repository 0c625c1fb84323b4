// Where a line of a sheet ends, if its words are a line: a known state, one whole tree after a state 0 and only zeros after any other.
#![tactic(auto, using(crate::proofs::Ending::forms))]

ghost use Rattle.std.specs.Prelude.{◌≡◌};
ghost use Rattle.sheet_lines.specs.Ends.{head_words, state_at, empty_head, nodes_end, head_end, line_end, lines_end, section_end};
ghost use Rattle.sheet_lines.specs.There.{HeadThere};

use definition::layout::NODE_WORDS;
use tree::extent::is_tree;
use tree::words::fits;

// The lines of the three sections.
#[derive(Clone, Copy)]
pub enum Form {
    Types,
    Variables,
    Completed,
}

// The words of a line's head, the last of which is its count.
#[tactic(auto, unfolding(crate::specs::Ends::head_words))]
pub fn head_words(form: Form) -> usize
    ensures { result ≡ head_words form }
{
    match form {
        Form::Types => 3,
        Form::Variables => 2,
        Form::Completed => 3,
    }
}

// Where in the head the state stands: a type's rank stands before it.
#[tactic(auto, unfolding(crate::specs::Ends::state_at))]
fn state_at(form: Form) -> usize
    ensures { result ≡ state_at form }
{
    match form {
        Form::Types => 1,
        Form::Variables => 0,
        Form::Completed => 0,
    }
}

// Whether a head may stand without nodes: none or too large; or left, and no kind.
fn is_empty(form: Form, state: u32, kind: u32, count: u32) -> bool
    ensures { result ≡ empty_head form state kind count }
{
    if count != 0 {
        return false;
    }
    match form {
        Form::Types => state <= 2,
        Form::Variables => state <= 2,
        Form::Completed => {
            if state != 1 {
                return false;
            }
            kind == 0
        }
    }
}

// Where the nodes behind a line's head end. `empty`: whether the head may stand without nodes.
#[tactic(auto, using(crate::proofs::Ending::nodes))]
fn nodes_end(sheet: &[u32], at: usize, state: u32, count: u32, empty: bool) -> Option<usize>
    ensures { result ≡ nodes_end sheet.now at state count empty }
{
    if state == 0 {
        let nodes = count as usize;
        if is_tree(sheet, at, nodes) {
            return Some(at + nodes * NODE_WORDS);
        }
        return None;
    }
    if empty {
        return Some(at);
    }
    None
}

// Where the line ends whose head lies up to a place.
#[tactic(auto, using(crate::proofs::Ending::heads))]
fn head_end(sheet: &[u32], form: Form, at: usize, from: usize) -> Option<usize>
    requires { HeadThere form sheet.now at from }
    ensures { result ≡ head_end form sheet.now at }
{
    let state = sheet[at + state_at(form)];
    let kind = sheet[at + 1];
    let count = sheet[from - 1];
    nodes_end(
        sheet,
        from,
        state,
        count,
        is_empty(form, state, kind, count),
    )
}

// Where the line at a place ends.
#[tactic(auto, using(crate::proofs::Ending::ending))]
pub fn line_end(sheet: &[u32], form: Form, at: usize) -> Option<usize>
    ensures { result ≡ line_end form sheet.now at }
{
    let head = head_words(form);
    if fits(sheet.len(), at, head) {
        return head_end(sheet, form, at, at + head);
    }
    None
}

// Where so many lines end that begin at a place.
#[tactic(auto, using(crate::proofs::Ending::sections))]
pub fn lines_end(sheet: &[u32], form: Form, many: u32, at: usize) -> Option<usize>
    ensures { result ≡ lines_end form sheet.now many at }
{
    let mut place = at;
    for _ in 0..many {
        place = line_end(sheet, form, place)?;
    }
    Some(place)
}

// Where a section ends whose count stands at a place, if the count is the file's.
#[tactic(auto, using(crate::proofs::Ending::sections))]
pub fn section_end(sheet: &[u32], form: Form, many: u32, at: usize) -> Option<usize>
    ensures { result ≡ section_end form sheet.now many at }
{
    if *sheet.get(at)? != many {
        return None;
    }
    lines_end(sheet, form, many, at + 1)
}
