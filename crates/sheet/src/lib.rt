// The strict reader of a sheet: the bytes' content, or refusal 14 with its place, and what a
// section of the sheet stands for. Numbers are read in number.rt, parts in part.rt. The place
// is the first byte that no well-formed sheet has after the bytes before it.
#![tactic(auto)]

ghost use Rattle.std.specs.Prelude.{◌≡◌, [], length, get_or};
ghost use Rattle.model.specs.Mappings.{section_with};
ghost use Rattle.sheet.specs.Contents.{read_sheet, no_line, section_in};
ghost use Rattle.sheet.specs.Answers.{read_as, Promised};

use model::{Dealing, Mapping, Section, Triplet};
use number::Cursor;

mod number;
mod part;

// A line: the name that it begins with, 0 on a template's line, which has none; and its numbers,
// five on an array's line and three on the others, where the last two are 0.
#[derive(Clone, Copy)]
pub struct Line {
    pub name: u64,
    pub first: i64,
    pub second: i64,
    pub third: i64,
    pub fourth: i64,
    pub fifth: i64,
}

// The lines of a part stand in its first rows; the other rows are 0. An array with a count beside it, since
// nothing here is on the heap.
#[derive(Clone, Copy)]
pub struct Lines {
    pub count: usize,
    pub rows: [Line; 64],
}

const NO_LINE: Line = Line {
    name: 0,
    first: 0,
    second: 0,
    third: 0,
    fourth: 0,
    fifth: 0,
};

const NO_LINES: Lines = Lines {
    count: 0,
    rows: [NO_LINE; 64],
};

// What a sheet holds.
#[derive(Clone, Copy)]
pub struct Content {
    pub templates: Lines,
    pub arrays: Lines,
    pub sections: Lines,
}

// No lines: for a caller that needs some content where a sheet is refused.
pub const NO_CONTENT: Content = Content {
    templates: NO_LINES,
    arrays: NO_LINES,
    sections: NO_LINES,
};

// Refusal 14, with its place.
#[derive(Clone, Copy)]
pub struct Malformed(pub usize);

// Is the print of a well-formed sheet all that `s` is? Then its content, else the refusal.
pub fn read_sheet(s: &[u8]) -> Result<Content, Malformed>
    ensures value { result ≡ read_as (length s.now) (read_sheet s.now) }
    ensures promised { Promised s.now result }
{
    match (Cursor { rest: s }).content() {
        Ok((content, _)) => Ok(content),
        Err(stop) => Err(Malformed(s.len() - stop.rest.len())),
    }
}

// Row i, or a line of zeros past the last row.
fn row(rows: [Line; 64], i: u64) -> Line
    ensures { result ≡ get_or rows i no_line }
{
    rows.get(i as usize).copied().unwrap_or(NO_LINE)
}

// What section j stands for: its triplet, and the mapping of the array and the template that
// it names. Past the sections and the names all numbers are 0. A sheet's templates are cyclic: the
// list of sizes beside the section is empty.
pub fn section_of(content: Content, j: u64) -> Section
    ensures { section_with result [] ≡ section_in content j }
{
    let sections = content.sections.rows;
    let arrays = content.arrays.rows;
    let templates = content.templates.rows;
    let section = row(sections, j);
    let array = row(arrays, section.name);
    let template = row(templates, array.name);
    Section {
        mapping: Mapping {
            cells: template.first,
            processors: template.second,
            dealing: Dealing::Cyclic(template.third),
            stride: array.first,
            offset: array.second,
            size: array.third,
            lower: array.fourth,
            origin: array.fifth,
        },
        triplet: Triplet {
            lower: section.first,
            upper: section.second,
            stride: section.third,
        },
    }
}
