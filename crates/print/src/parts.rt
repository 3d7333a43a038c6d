// A section's print in parts, one after the other: its first line, the front of a processor's
// line, addresses of it, and its newline.
ghost use Rattle.std.specs.Prelude.{◌≤◌, ◌≡◌, [], length};
ghost use Rattle.model.specs.Mappings.{section_with};
ghost use Rattle.print.specs.Ahead.{listed, Fair, Owner, StandsIn};
ghost use Rattle.print.specs.Texts.{section_text};
ghost use Rattle.print.specs.Turns.{lines_from, text_left, Stands, Room, PartOf};
ghost use Rattle.print.specs.declared.parts.Turn.TheVariants.{Line, Addresses};

use crate::fills::{Listed, Rest, fill_on, tries_of, whole};
use crate::lines::{addresses, line_front, refusal_line, section_line};
use crate::text::put_byte;
use model::Section;
use section::questions::ask_section;

// What comes next: a processor's line, or the rest of its addresses; or nothing, which is a case too, so that one match
// has all of them.
#[derive(Clone, Copy)]
pub enum Turn {
    Line(Listed, u64),
    Addresses(Listed, u64, Rest),
    Done,
}

// A part: how many bytes it has, and what comes after it.
#[derive(Clone, Copy)]
pub struct Part<T> {
    pub bytes: usize,
    pub next: T,
}

// Processor q's line, if there is such a processor.
fn line_or_done(x: Listed, q: u64) -> Turn
    requires { Fair x }
    ensures { (text_left result ≡ lines_from (listed x) q) × Stands result }
{
    if q < x.strided.layout.processors {
        Turn::Line(x, q)
    } else {
        Turn::Done
    }
}

// The first line of section j, beside which no list of sizes stands.
pub fn first_part(j: u64, x: Section, out: &mut [u8]) -> Part<Turn>
    requires { 64 ≤ length out.old }
    ensures { PartOf (section_text j (section_with x [])) out.new result }
{
    match ask_section(x, &[]) {
        Ok(strided) => Part {
            bytes: section_line(j, strided.count, out),
            next: line_or_done(
                Listed {
                    section: x,
                    strided,
                },
                0,
            ),
        },
        Err(e) => Part {
            bytes: refusal_line(j, u64::from(e.number()), out),
            next: Turn::Done,
        },
    }
}

// The front of processor q's line.
fn front_part(x: Listed, q: u64, list: &mut [u32], out: &mut [u8]) -> Part<Turn>
    requires { Owner x q × Room list.old out.old }
    ensures { PartOf (text_left (Line x q)) out.new result }
{
    let rest = whole(x, q);
    let tries = tries_of(x, q, list);
    Part {
        bytes: line_front(q, rest.left, tries, out),
        next: Turn::Addresses(x, q, rest),
    }
}

// As many addresses as one fill gives, or the newline where none is left.
fn addresses_part(x: Listed, q: u64, rest: Rest, list: &mut [u32], out: &mut [u8]) -> Part<Turn>
    requires { Owner x q × StandsIn (listed x) q rest × Room list.old out.old }
    ensures { PartOf (text_left (Addresses x q rest)) out.new result }
{
    if rest.left == 0 {
        return Part {
            bytes: put_byte(b'\n', out, 0),
            next: line_or_done(x, q + 1),
        };
    }
    let g = fill_on(x, q, rest, list);
    Part {
        bytes: addresses(list, g.entries, out),
        next: Turn::Addresses(x, q, g.rest),
    }
}

// The part that comes next.
pub fn next_part(turn: Turn, list: &mut [u32], out: &mut [u8]) -> Part<Turn>
    requires { Stands turn × Room list.old out.old }
    ensures { PartOf (text_left turn) out.new result }
{
    match turn {
        Turn::Line(x, q) => front_part(x, q, list, out),
        Turn::Addresses(x, q, rest) => addresses_part(x, q, rest, list, out),
        Turn::Done => Part {
            bytes: 0,
            next: Turn::Done,
        },
    }
}
