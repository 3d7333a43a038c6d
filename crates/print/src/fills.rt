// Fills along a processor's list of an accepted section, from a place to the list's end.
ghost use Rattle.std.specs.Prelude.{◌≡◌, ◌<◌, map, length};
ghost use Rattle.numbers.specs.Search.{sum};
ghost use Rattle.model.specs.Sections.{places};
ghost use Rattle.model.specs.Steps.{cost};
ghost use Rattle.print.specs.Ahead.{listed, Owner, rest_of, StandsIn, Went};

use fill::ready::Start;
use fill::words::fill_from;
use model::{MOST_TRIES, Position, Section};
use section::elements::elements_of;
use section::place::place_of;
use section::questions::Strided;
use section::shares::Extent;

// An accepted section, of a cyclic template: as the sheet has it, and on natural numbers.
#[derive(Clone, Copy)]
pub struct Listed {
    pub section: Section,
    pub strided: Strided,
}

// What is left of a processor's list: the place of the next element, and how many there are.
#[derive(Clone, Copy)]
pub struct Rest {
    pub place: Position,
    pub left: u64,
}

// What a fill gave: entries, tries, and what is left after it.
#[derive(Clone, Copy)]
pub struct Gone {
    pub entries: usize,
    pub tries: u64,
    pub rest: Rest,
}

// All of a processor's list.
pub fn whole(x: Listed, q: u64) -> Rest
    requires { Owner x q }
    ensures { (rest_of (listed x) q result ≡ places (listed x) q) × StandsIn (listed x) q result }
{
    let w = x.strided;
    Rest {
        place: place_of(w, q),
        left: elements_of(w, q),
    }
}

// One fill from the place on, of no more entries than are left.
pub fn fill_on(x: Listed, q: u64, rest: Rest, list: &mut [u32]) -> Gone
    requires { Owner x q × StandsIn (listed x) q rest }
    ensures { Went (listed x) q rest list.old list.new result }
{
    let start = Start {
        section: x.strided,
        processor: q,
        extent: Extent::Blocks,
        place: rest.place,
        quota: MOST_TRIES,
    };
    let room = rest.left.min(list.len() as u64) as usize;
    let r = fill_from(start, &mut list[..room]);
    Gone {
        entries: r.entries,
        tries: r.tries,
        rest: Rest {
            place: r.place,
            left: rest.left - r.entries as u64,
        },
    }
}

// The tries of a processor's full list.
pub fn tries_of(x: Listed, q: u64, list: &mut [u32]) -> u64
    requires { Owner x q × (0 < length list.old) }
    ensures { result ≡ sum (map (cost (listed x)) (places (listed x) q)) }
{
    let mut rest = whole(x, q);
    let mut tries: u64 = 0;
    // Not a `for`: a fill says how much is left after it.
    while 0 < rest.left {
        let g = fill_on(x, q, rest, list);
        tries += g.tries;
        rest = g.rest;
    }
    tries
}
