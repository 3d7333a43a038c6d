// A part of the sheet: a line with its count, and that many lines.
ghost use Rattle.std.specs.Prelude.{◌≡◌, ◌<◌, ◌≤◌};
ghost use Rattle.sheet.specs.Parts.{end_by, line_of, numbered, named, line, limit_by, limit};
ghost use Rattle.sheet.specs.Parts.{Names, Room};
ghost use Rattle.sheet.specs.Contents.{kept_lines, kept_part, kept_whole};
ghost use Rattle.sheet.specs.Answers.{got_in};

use crate::number::{Cursor, Read};
use crate::{Content, Line, Lines, NO_LINE};

// Which part, and for arrays and sections how many templates or arrays there are to name.
#[derive(Clone, Copy)]
pub enum Part {
    Templates,
    Arrays(u64),
    Sections(u64),
}

// The byte after a number that `more` others follow on its line.
fn end_by(more: usize) -> u8
    ensures { result ≡ end_by more }
{
    if more == 0 { b'\n' } else { b' ' }
}

// A line of a name and five numbers.
fn line_of(name: u64, v: [i64; 5]) -> Line
    ensures { result ≡ line_of name v }
{
    Line {
        name,
        first: v[0],
        second: v[1],
        third: v[2],
        fourth: v[3],
        fifth: v[4],
    }
}

// How many lines begin with one of `names` names: fewer than this.
fn limit_by(names: u64) -> u64
    ensures { result ≡ limit_by names }
{
    if names == 0 { 1 } else { 65 }
}

// How many lines a part has: fewer than this.
fn limit_of(kind: Part) -> u64
    ensures { result ≡ limit kind }
{
    match kind {
        Part::Templates => 65,
        Part::Arrays(names) | Part::Sections(names) => limit_by(names),
    }
}

impl<'a> Cursor<'a> {
    // n numbers to the end of a line, as the line that begins with `name`; those that it lacks are 0.
    fn numbers(self, name: u64, n: usize) -> Read<'a, Line>
        requires { n ≤ 5 }
        ensures { got_in result ≡ numbered n name self.entry.rest.now }
    {
        let mut v = [0i64; 5];
        let mut next = self;
        for i in 0..n {
            let (z, after) = next.number(end_by(n - (i + 1)))?;
            v[i] = z;
            next = after;
        }
        Ok((line_of(name, v), next))
    }

    // A line that begins with one of `names` names and goes on with n numbers.
    fn named(self, names: u64, n: usize) -> Read<'a, Line>
        requires { (0 < names) × (names ≤ 64) × (n ≤ 5) }
        ensures { got_in result ≡ named names n self.entry.rest.now }
    {
        let (name, next) = self.natural(0, names, b' ')?;
        next.numbers(name, n)
    }

    // A line of a part of that kind.
    fn line(self, kind: Part) -> Read<'a, Line>
        requires { Names kind }
        ensures { got_in result ≡ line kind self.entry.rest.now }
    {
        match kind {
            Part::Templates => self.numbers(0, 3),
            Part::Arrays(names) => self.named(names, 5),
            Part::Sections(names) => self.named(names, 3),
        }
    }

    // n lines of a part of that kind.
    fn lines(self, kind: Part, n: usize) -> Read<'a, Lines>
        requires { (n < limit kind) × Room kind }
        ensures { got_in result ≡ kept_lines kind n self.entry.rest.now }
    {
        let mut rows = [NO_LINE; 64];
        let mut next = self;
        for i in 0..n {
            let (line, after) = next.line(kind)?;
            rows[i] = line;
            next = after;
        }
        Ok((Lines { count: n, rows }, next))
    }

    // A line with the count, and that many lines.
    pub fn part(self, kind: Part) -> Read<'a, Lines>
        requires { Room kind }
        ensures { got_in result ≡ kept_part kind self.entry.rest.now }
    {
        let (n, next) = self.natural(0, limit_of(kind), b'\n')?;
        next.lines(kind, n as usize)
    }

    // The three parts, and nothing after them.
    pub fn content(self) -> Read<'a, Content>
        ensures { got_in result ≡ kept_whole self.entry.rest.now }
    {
        let (templates, next) = self.part(Part::Templates)?;
        let (arrays, next) = next.part(Part::Arrays(templates.count as u64))?;
        let (sections, end) = next.part(Part::Sections(arrays.count as u64))?;
        let content = Content {
            templates,
            arrays,
            sections,
        };
        if !end.rest.is_empty() {
            return Err(end);
        }
        Ok((content, end))
    }
}
