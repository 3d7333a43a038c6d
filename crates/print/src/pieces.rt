// A sheet's print in pieces, one after the other: the parts of its sections, in order.
ghost use Rattle.std.specs.Prelude.{◌≤◌, length};
ghost use Rattle.print.specs.Turns.{Stands, Room};
ghost use Rattle.print.specs.Pieces.{sections_from, left_text, PieceOf, OpenedOf};

use crate::lines::sheet_line;
use crate::parts::{Part, Turn, first_part, next_part};
use sheet::{Content, Malformed, NO_CONTENT, read_sheet, section_of};

// What comes next: the rest of a section's print, and the sections from one on.
#[derive(Clone, Copy)]
pub struct Left {
    pub turn: Turn,
    pub section: u64,
}

// A piece: how many bytes it has, and what comes after it.
pub type Piece = Part<Left>;

// The first line of section j, if the sheet has one.
fn section_piece(content: &Content, j: u64, out: &mut [u8]) -> Piece
    requires { 64 ≤ length out.old }
    ensures { PieceOf content.now (sections_from content.now j) out.new result }
{
    if content.sections.count as u64 <= j {
        return Piece {
            bytes: 0,
            next: Left {
                turn: Turn::Done,
                section: j,
            },
        };
    }
    let part = first_part(j, section_of(*content, j), out);
    Piece {
        bytes: part.bytes,
        next: Left {
            turn: part.next,
            section: j + 1,
        },
    }
}

// The first piece of a sheet, and what the sheet holds: nothing, where it is refused.
#[derive(Clone, Copy)]
pub struct Opened {
    pub content: Content,
    pub piece: Piece,
}

// The first piece of the print of what stands in `s`.
pub fn first_piece(s: &[u8], out: &mut [u8]) -> Opened
    requires { 64 ≤ length out.old }
    ensures { OpenedOf s.now out.new result }
{
    match read_sheet(s) {
        Ok(content) => Opened {
            content,
            piece: section_piece(&content, 0, out),
        },
        Err(Malformed(place)) => Opened {
            content: NO_CONTENT,
            piece: Piece {
                bytes: sheet_line(place as u64, out),
                next: Left {
                    turn: Turn::Done,
                    section: 0,
                },
            },
        },
    }
}

// The piece that comes next.
pub fn next_piece(content: &Content, left: Left, list: &mut [u32], out: &mut [u8]) -> Piece
    requires { Stands left.turn × Room list.old out.old }
    ensures { PieceOf content.now (left_text content.now left) out.new result }
{
    let part = next_part(left.turn, list, out);
    if part.bytes == 0 {
        return section_piece(content, left.section, out);
    }
    Piece {
        bytes: part.bytes,
        next: Left {
            turn: part.next,
            section: left.section,
        },
    }
}
