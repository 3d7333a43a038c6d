// A program that shows the reader at work: it reads sheets with one mistake each and prints the
// refusal and its place; then reads document 01's sheet from standard input and prints its
// counts, and 1 if its section is the right one.
#![tactic(auto)]

use model::{Dealing, Section};
use sheet::{Content, Malformed, NO_CONTENT, read_sheet, section_of};
use std::io;
use std::io::Read;

// What is read of the input: a byte more than the longest sheet has.
const SHEET: usize = 8842;

// Sheets that are well-formed, and then sheets with one mistake each.
const CASES: [&[u8]; 28] = [
    b"0\n0\n0\n",
    b"1\n-2147483647 0 2147483647\n0\n0\n",
    b"1\n12 3 2\n1\n0 2 -2 5 -1 -2147483647\n0\n",
    b"",
    b"0\n0\n0",
    b"64",
    b"0\n0\n0\n\n",
    b"00\n",
    b"-",
    b"1\n-0 ",
    b"1\n2147483648 ",
    b"1\n-2147483648 ",
    b"1\n21474836470",
    b"65\n",
    b"70",
    b"0\n1\n",
    b"0\n0\n1",
    b"1\n1 1 1\n0\n1",
    b"1\n1 1 1\n1\n1",
    b"2\n1 1 1\n1 1 1\n1\n1 1 1 1 1 1\n1\n1",
    b"2\n1 1 1\n1 1 1\n1\n10",
    b"12\n1 1 1\n1 1 1\n1 1 1\n1 1 1\n1 1 1\n1 1 1\n1 1 1\n1 1 1\n1 1 1\n1 1 1\n1 1 1\n1 1 1\n1\n12",
    b"12\n1 1 1\n1 1 1\n1 1 1\n1 1 1\n1 1 1\n1 1 1\n1 1 1\n1 1 1\n1 1 1\n1 1 1\n1 1 1\n1 1 1\n1\n11",
    b"1\n1  1",
    b"1\n1 1\n",
    b"1\n1 1 1 ",
    b"1\n1 1 1\n1\n0 1 1 1 1\n",
    b"1\n1 1 1\n1\n0 1 1 1 1 1 ",
];

fn case(rt: &impl Print, s: &[u8]) -> io::Result<()> {
    match read_sheet(s) {
        Ok(_) => println!(rt; "0 0"),
        Err(Malformed(place)) => println!(rt; "14 {place}"),
    }
}

// Is it the section of document 01's sheet?
fn right(x: Section) -> bool {
    let m = x.mapping;
    let t = x.triplet;
    matches!(m.dealing, Dealing::Cyclic(2))
        && [m.cells, m.processors] == [12, 3]
        && [m.stride, m.offset, m.size, m.lower, m.origin] == [1, 0, 12, 0, 0]
        && [t.lower, t.upper, t.stride] == [0, 11, 5]
}

// The content is lent, and the counts alone are listed: a copy of it, or of its three parts, takes 9 KB of the stack.
fn listed(rt: &impl Print, content: &Content) -> io::Result<()> {
    for count in [
        content.templates.count,
        content.arrays.count,
        content.sections.count,
    ] {
        println!(rt; "{count}")?;
    }
    println!(rt; "{}", u64::from(right(section_of(*content, 0))))
}

fn main(rt: HostRuntime) -> io::Result<()> {
    for s in CASES {
        case(&rt, s)?;
    }
    let mut buffer = [0u8; SHEET];
    let mut room = buffer.as_mut_slice();
    let read = io::copy(&mut rt.stdin().take(SHEET as u64), &mut room)?;
    // No more than `take` lets through, but the contract of `copy` does not say so.
    let n = (read as usize).min(SHEET);
    match read_sheet(&buffer[..n]) {
        Ok(content) => listed(&rt, &content),
        Err(_) => listed(&rt, &NO_CONTENT),
    }
}
