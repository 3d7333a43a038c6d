// The print of the program `list`, put piece by piece into bytes that the caller lends. Behind the
// two functions: numbers in base ten (text.rt), the text of each line (lines.rt), a processor's
// list by fills (fills.rt), a section's print part by part (parts.rt), and a sheet's (pieces.rt).
#![tactic(auto)]

ghost use Rattle.std.specs.Prelude.{ℕ, ◌+◌, ◌≤◌, ◌≡◌, List, [], ◌++◌, length, take};
ghost use Rattle.print.specs.Turns.{Stands, Room};
ghost use Rattle.print.specs.Giving.{Received, Gives, Waits, to_give};

use pieces::{first_piece, next_piece};
use sheet::Content;

mod fills;
mod lines;
mod parts;
mod pieces;
mod text;

pub use pieces::{Opened, Piece};

// The first piece, from a buffer to whose front n bytes of the input were read. No sheet has more
// than 8,841 bytes, so that 8,842 decide what is printed for a longer input. Where the print is cut
// into pieces is open, and so are the bytes of `out` after a piece: whoever writes one piece after
// the other depends on neither.
pub fn begin(sheet: &[u8], n: usize, out: &mut [u8]) -> Opened
    requires { (8842 ≤ length sheet.now) × (n ≤ length sheet.now) × (64 ≤ length out.old) }
    ensures waits { Waits out.new result.piece }
    ensures by_index { (s : List ℕ) → Received s sheet.now n
        → Gives s [] result.content out.new result.piece }
{
    first_piece(&sheet[..n], out)
}

// The next piece, after one that was given to be written; it has no bytes once all was given. What
// the list holds afterwards is open too: each fill puts its addresses there anew, and none reads
// what it held. The content is lent: a copy of its 9 KB would cost more than most pieces.
pub fn go_on(content: &Content, piece: Piece, list: &mut [u32], out: &mut [u8]) -> Piece
    requires { Stands piece.next.turn × Room list.old out.old }
    ensures waits { Waits out.new result × (to_give content.now result + piece.bytes ≡ to_give content.now piece) }
    ensures by_index { (s given : List ℕ) → Gives s given content.now out.old piece
        → Gives s (given ++ take piece.bytes out.old) content.now out.new result }
{
    let left = piece.next;
    next_piece(content, left, list, out)
}
