// The program `list`: reads a sheet from standard input, and writes every processor's list of
// addresses for each of its sections, or the refusal. The contracts of the crate print say which
// bytes are to be written. That they are, and what is read, no contract can say: it is tested.
#![tactic(auto)]

use std::io;
use std::io::Read;

// What is read of the input: a byte more than the longest sheet has.
const SHEET: usize = 8842;

// A piece has at most 11 bytes for each entry of the list: a blank and 10 digits.
const ENTRIES: usize = 16384;

const BYTES: usize = 180224;

fn main(rt: HostRuntime) -> io::Result<()> {
    let mut sheet = [0u8; SHEET];
    let mut list = [0u32; ENTRIES];
    let mut out = [0u8; BYTES];
    let mut room = sheet.as_mut_slice();
    let read = io::copy(&mut rt.stdin().take(SHEET as u64), &mut room)?;
    // No more than `take` lets through, but the contract of `copy` does not say so.
    let n = (read as usize).min(SHEET);
    let opened = print::begin(&sheet, n, &mut out);
    let content = opened.content;
    let mut piece = opened.piece;
    // Not a `for`: a piece is borrowed from `out`, into which the next one is written.
    while 0 < piece.bytes {
        rt.write_all(&out[..piece.bytes])?;
        piece = print::go_on(&content, piece, &mut list, &mut out);
    }
    Ok(())
}
