// The text of each line of the print, from the front of a lent list of bytes on. Each
// function answers how many bytes it put.
ghost use Rattle.std.specs.Prelude.{◌*◌, ◌≤◌, ◌∷◌, length, take};
ghost use Rattle.model.specs.Sheets.{digits_of};
ghost use Rattle.print.specs.Texts.{section_line, refusal_line, sheet_line, line_front, next_numbers, Puts};

use crate::text::{put_byte, put_next, put_number};

// `S j`, with which a section's first line begins.
fn put_section(j: u64, out: &mut [u8]) -> usize
    requires { length (83 ∷ 32 ∷ digits_of j) ≤ length out.old }
    ensures { Puts (83 ∷ 32 ∷ digits_of j) out.old 0 out.new result }
{
    let at = put_byte(b'S', out, 0);
    put_next(j, out, at)
}

// `S j count` and a newline.
pub fn section_line(j: u64, count: u64, out: &mut [u8]) -> usize
    requires { length (section_line j count) ≤ length out.old }
    ensures { Puts (section_line j count) out.old 0 out.new result }
{
    let at = put_section(j, out);
    let end = put_next(count, out, at);
    put_byte(b'\n', out, end)
}

// `S j E number` and a newline.
pub fn refusal_line(j: u64, number: u64, out: &mut [u8]) -> usize
    requires { length (refusal_line j number) ≤ length out.old }
    ensures { Puts (refusal_line j number) out.old 0 out.new result }
{
    let at = put_section(j, out);
    let blank = put_byte(b' ', out, at);
    let letter = put_byte(b'E', out, blank);
    let end = put_next(number, out, letter);
    put_byte(b'\n', out, end)
}

// `E 14 place` and a newline.
pub fn sheet_line(place: u64, out: &mut [u8]) -> usize
    requires { length (sheet_line place) ≤ length out.old }
    ensures { Puts (sheet_line place) out.old 0 out.new result }
{
    let at = put_byte(b'E', out, 0);
    let after = put_next(14, out, at);
    let end = put_next(place, out, after);
    put_byte(b'\n', out, end)
}

// What a processor's line begins with: its number, its elements and its tries.
pub fn line_front(q: u64, elements: u64, tries: u64, out: &mut [u8]) -> usize
    requires { length (line_front q elements tries) ≤ length out.old }
    ensures { Puts (line_front q elements tries) out.old 0 out.new result }
{
    let at = put_number(q, out, 0);
    let after = put_next(elements, out, at);
    put_next(tries, out, after)
}

// The first n addresses of a list, a blank before each.
pub fn addresses(list: &[u32], n: usize, out: &mut [u8]) -> usize
    requires { (n ≤ length list.now) × (11 * n ≤ length out.old) }
    ensures { (result ≤ 11 * n) × Puts (next_numbers (take n list.now)) out.old 0 out.new result }
{
    let mut at: usize = 0;
    for address in &list[..n] {
        at = put_next(u64::from(*address), out, at);
    }
    at
}
