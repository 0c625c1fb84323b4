// The check program: the names of a declaration file and of a sheet, each words in little-endian bytes, as arguments; prints `passes`, or `refused` and the number.
// Bytes that are no whole words are refusal 1 of a declaration file, and 11 of a sheet. It prints `long` where the words are more than it has room for.
#![tactic(auto)]

mod unread;
mod words;

use definition::answers::Refusal;
use sheet::check::check_sheet;
use std::env::Env;
use std::fs::Files;
use std::{fs, io};
use unread::Unread;
use words::read_words;

// A quarter of the words of the longest file.
const FILE_WORDS: usize = 65536;

const SHEET_WORDS: usize = 262144;
// 56 levels of 24,576 words: with the other arrays and what calls take that is within a stack of 8 MiB.
const ROOM_WORDS: usize = 1376256;
// As long as a path of the system may be.
const NAME_BYTES: usize = 4096;

// A name that is no UTF-8 names no file that `std::fs` can open.
fn read_named<'a>(
    rt: &(impl Files + Eprint),
    name: &[u8],
    words: &'a mut [u32],
) -> Result<&'a [u32], Unread> {
    let Ok(path) = str::from_utf8(name) else {
        rt.eprintln("check_program: the name of a file is no UTF-8")?;
        return Err(Unread::Missing);
    };
    match fs::open(rt, path) {
        Ok(mut file) => read_words(&mut file, words),
        Err(error) => {
            eprintln!(rt; "{path}: {error}")?;
            Err(Unread::Missing)
        }
    }
}

// The file that argument k names.
fn read_argument<'a>(
    rt: &(impl Files + Env + Eprint),
    k: usize,
    words: &'a mut [u32],
) -> Result<&'a [u32], Unread> {
    let mut name = [0u8; NAME_BYTES];
    let Ok(length) = rt.arg(k, &mut name) else {
        rt.eprintln("usage: check_program FILE SHEET")?;
        return Err(Unread::Missing);
    };
    read_named(rt, &name[..length], words)
}

fn print_refused(rt: &impl Print, refusal: Refusal) -> io::Result<()> {
    println!(rt; "refused {}", refusal.number())
}

fn print_answer(rt: &impl Print, answer: Result<(), Refusal>) -> io::Result<()> {
    match answer {
        Ok(()) => rt.println("passes"),
        Err(refusal) => print_refused(rt, refusal),
    }
}

// Why words were not read; a missing file is known already.
fn print_unread(rt: &impl Print, unread: Unread, odd: Refusal) -> io::Result<()> {
    match unread {
        Unread::Odd => print_refused(rt, odd),
        Unread::Long => rt.println("long"),
        Unread::Missing => Ok(()),
        Unread::Failed(error) => Err(error),
    }
}

fn check_named(
    rt: &(impl Files + Env + Print + Eprint),
    file: &mut [u32],
    sheet: &mut [u32],
    room: &mut [u32],
) -> io::Result<()> {
    let file = match read_argument(rt, 1, file) {
        Ok(words) => words,
        Err(unread) => return print_unread(rt, unread, Refusal::Ends),
    };
    let sheet = match read_argument(rt, 2, sheet) {
        Ok(words) => words,
        Err(unread) => return print_unread(rt, unread, Refusal::Sections),
    };
    print_answer(rt, check_sheet(file, sheet, room))
}

fn main(rt: HostRuntime) -> io::Result<()> {
    let mut file = [0u32; FILE_WORDS];
    let mut sheet = [0u32; SHEET_WORDS];
    let mut room = [0u32; ROOM_WORDS];
    check_named(&rt, &mut file, &mut sheet, &mut room)
}
