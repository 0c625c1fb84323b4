// Prints the table of docs/RANGES.md, its numbers from the table that conversions use. `./test` compares the page with this program's expected output.
#![tactic(auto)]

use ranges::table::for_integer;
use std::io;

// The integer types: name, bits, and whether there are numbers below 0.
const TYPES: [(&str, u32, bool); 8] = [
    ("SINT", 8, true),
    ("INT", 16, true),
    ("DINT", 32, true),
    ("LINT", 64, true),
    ("USINT", 8, false),
    ("UINT", 16, false),
    ("UDINT", 32, false),
    ("ULINT", 64, false),
];

fn print_row(rt: &impl Print, name: &str, bits: u32, signed: bool) -> io::Result<()> {
    match for_integer(bits, signed) {
        Some((least, greatest)) => println!(rt; "| {name} | {bits} | {least} | {greatest} |"),
        None => println!(rt; "| {name} | {bits} | none | none |"),
    }
}

fn main(rt: HostRuntime) -> io::Result<()> {
    rt.println("| Type | Bits | Least | Greatest |")?;
    rt.println("|---|---|---|---|")?;
    for (name, bits, signed) in TYPES {
        print_row(&rt, name, bits, signed)?;
    }
    Ok(())
}
