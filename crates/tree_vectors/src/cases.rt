// One case: its function, with its numbers and its words, and the line of what it answers.
use crate::answer::Answer;
use definition::records::Constant;
use std::io;
use tree::extent::Span;
use tree::{extent, node, part, words};
use tree_changes::grow::Unfit;
use tree_changes::{grow, limit};

// What is read.
fn read(function: u32, x: [u32; 8], s: &[u32]) -> Option<Answer> {
    let at = x[0] as usize;
    let count = x[1] as usize;
    match function {
        1 => Some(Answer::End(extent::whole(s, at))),
        2 => Some(Answer::End(extent::after(s, at, count))),
        3 => Some(Answer::Test(extent::is_tree(s, at, count))),
        4 => Some(Answer::Value(part::value_at(s, at))),
        5 => Some(Answer::Part(part::find(s, at, x[1]))),
        6 => Some(Answer::Part(part::part(s, at, x[1]))),
        7 => Some(Answer::Part(part::nth(s, at, count))),
        8 => Some(Answer::Node(node::read(s, at))),
        _ => None,
    }
}

// What is tested.
fn limits(function: u32, x: [u32; 8]) -> Option<Answer> {
    let [a, b, c, d, e, f, _, _] = x.map(|n| n as usize);
    match function {
        11 => Some(Answer::Test(limit::may_form(a))),
        12 => Some(Answer::Test(limit::may_gather(a, b))),
        13 => Some(Answer::Test(limit::may_repeat(a, b))),
        14 => Some(Answer::Added(limit::may_add(a, b, c, d, e))),
        15 => Some(Answer::Added(limit::may_copy(a, b, c, d, e, f))),
        _ => None,
    }
}

// What is written.
fn write(function: u32, x: [u32; 8], s: &[u32], out: &mut [u32]) -> Option<Answer> {
    let [a, b, c, d, _, _, _, _] = x.map(|n| n as usize);
    match function {
        21 => {
            let [_, kind, sign, low, high, width, _, _] = x;
            let value = Constant {
                kind,
                sign,
                low,
                high,
                width,
            };
            Some(Answer::End(node::write_leaf(out, a, value)))
        }
        22 => Some(Answer::End(node::write_array(out, a, x[1]))),
        23 => Some(Answer::End(node::write_structure(out, a, x[1]))),
        24 => Some(Answer::Test(node::set_name(out, a, x[1]))),
        25 => Some(Answer::End(words::copy(s, a, b, out, c))),
        26 => Some(Answer::End(words::shift(out, a, b, c))),
        27 => Some(Answer::Grown(grow::gather(s, a, b, out, c, d))),
        28 => Some(Answer::Grown(grow::repeat(out, a, b, c))),
        _ => None,
    }
}

// What takes a part's place. Function 31 replaces it, any other names the new part too.
fn replace(function: u32, x: [u32; 8], out: &mut [u32]) -> Result<usize, Unfit> {
    let [a, b, c, d, e, f, _, _] = x.map(|n| n as usize);
    let tree = Span { begin: a, end: b };
    let part = Span { begin: c, end: d };
    let fresh = Span { begin: e, end: f };
    if function == 31 {
        return grow::replace(out, tree, part, fresh);
    }
    grow::assign(out, tree, part, fresh, x[7])
}

fn mixed(sum: u64, word: u32) -> u64 {
    ((sum % 4294967291) * 1000003 + (word as u64)) % 4294967291
}

// One number for the words from a place up to another: the remainder of a sum of powers.
fn sum(s: &[u32], from: usize, to: usize) -> u64 {
    let mut total: u64 = 7;
    for &word in s.iter().take(to).skip(from) {
        total = mixed(total, word);
    }
    total
}

fn print_answer(rt: &impl Print, answer: Option<Answer>) -> io::Result<()> {
    match answer {
        Some(answer) => print!(rt; "{answer} "),
        None => Ok(()),
    }
}

// The answer with the words up to it and those from a place on; what is between them is scratch.
fn print_replaced(
    rt: &impl Print,
    end: Result<usize, Unfit>,
    out: &[u32],
    from: usize,
) -> io::Result<()> {
    print_answer(rt, Some(Answer::Grown(end)))?;
    match end {
        Ok(end) => print!(rt; "{} {} ", sum(out, 0, end), sum(out, from, out.len())),
        Err(_) => print!(rt; "{} ", sum(out, 0, out.len())),
    }
}

fn print_case(
    rt: &impl Print,
    function: u32,
    x: [u32; 8],
    s: &[u32],
    out: &mut [u32],
) -> io::Result<()> {
    match function {
        0..=9 => print_answer(rt, read(function, x, s)),
        10..=19 => print_answer(rt, limits(function, x)),
        20..=29 => {
            print_answer(rt, write(function, x, s, out))?;
            print!(rt; "{} ", sum(out, 0, out.len()))
        }
        _ => {
            let end = replace(function, x, out);
            print_replaced(rt, end, out, x[6] as usize)
        }
    }
}

// Ten numbers: the function, how many words were given, and the function's own; and those words, copied to `out` too.
pub fn run(rt: &impl Print, head: &[u32; 10], s: &[u32], out: &mut [u32]) -> io::Result<()> {
    let [function, _, a, b, c, d, e, f, g, h] = *head;
    words::copy(s, 0, s.len(), out, 0);
    print!(rt; "{function} ")?;
    print_case(rt, function, [a, b, c, d, e, f, g, h], s, out)?;
    print!(rt; "\n")
}
