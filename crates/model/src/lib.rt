// What a reader must believe: the terms of document 01 as types here, and as definitions
// in specs/. The demands are stated in specs/ too; what follows from the definitions is
// proved in proofs/. Refusals are in refusals.rt, what is threefold on a grid in three.rt.
#![tactic(auto)]

pub mod refusals;
pub mod three;

pub use refusals::{ListError, Refusal};
pub use three::{Ranked, Three};

// Limits that several questions and loops name: the size of a declared number, of a count and of a
// list's entry; the processors; the tries that a fill asks for before it goes on, and the largest
// quota.
pub const MOST: i64 = 2147483647;

pub const MOST_PROCESSORS: i64 = 1024;

pub const LEAST_TRIES: u64 = 3;

pub const MOST_TRIES: u64 = 1000000;

// An element's index, a cell's number, a local address and a section position, each
// counted from 0: four types, so that none is taken for another.
#[derive(Clone, Copy)]
pub struct Index(pub u64);

#[derive(Clone, Copy)]
pub struct Cell(pub u64);

#[derive(Clone, Copy)]
pub struct Address(pub u64);

#[derive(Clone, Copy)]
pub struct Position(pub u64);

// An element's index as the program declares it, from the array's lower bound on.
#[derive(Clone, Copy)]
pub struct Declared(pub i64);

// How a template's cells are dealt to processors: in turn, in blocks of k; or GEN_BLOCK, each
// processor one run of cells. The list of the runs' sizes stands beside a mapping, as bytes, and
// not in here: the table `GridRefusals` and an edit of it are about lists of other dimensions.
#[derive(Clone, Copy)]
pub enum Dealing {
    Cyclic(i64),
    GenBlock,
}

// A mapping as a caller passes it: T, p, the dealing, a, b and n of document 01, and the lower
// bounds that the program declares, the template's (Lt) and the array's (La). The two are not
// neighbours, as they are among a C function's arguments: copied as one word of 16 bytes they
// would make the call wait for the stores of each.
#[derive(Clone, Copy)]
pub struct Mapping {
    pub cells: i64,
    pub processors: i64,
    pub dealing: Dealing,
    pub origin: i64,
    pub stride: i64,
    pub offset: i64,
    pub size: i64,
    pub lower: i64,
}

// A mapping that passed its questions, as natural numbers: elements count from 0, and the
// offset is the first one's cell. A GEN_BLOCK template has no block: 1 stands in its place, and
// nothing looks at it. No ghost field says that the numbers are in range (`Sized`): the definition
// `layout_of` makes a layout of any mapping, accepted or not.
#[derive(Clone, Copy)]
pub struct Layout {
    pub cells: u64,
    pub processors: u64,
    pub block: u64,
    pub stride: u64,
    pub offset: u64,
    pub size: u64,
}

// A triplet l:h:s as a caller passes it.
#[derive(Clone, Copy)]
pub struct Triplet {
    pub lower: i64,
    pub upper: i64,
    pub stride: i64,
}

// How the Fortran text reads l:h:s: forward or backward over the distance from l to h, by the
// size of s; or empty, where h lies the other way.
#[derive(Clone, Copy)]
pub enum Case {
    Forward { distance: u64, stride: u64 },
    Backward { distance: u64, stride: u64 },
    Empty,
}

// A section of an array.
#[derive(Clone, Copy)]
pub struct Section {
    pub mapping: Mapping,
    pub triplet: Triplet,
}

// An array of rank 1 to 3 on a grid of processors: a mapping for each dimension; and a section of it.
pub type Grid = Ranked<Mapping>;

pub type GridSection = Ranked<Section>;

// A step: its cells, its courses, and by how many columns it moves. The return step moves
// as many columns back.
#[derive(Clone, Copy)]
pub struct Step {
    pub cells: u64,
    pub courses: u64,
    pub column: u64,
}

// The steps of a section: the processor step and the return step, or one step, or none.
#[derive(Clone, Copy)]
pub enum Steps {
    NoStep,
    OneStep(Step),
    TwoSteps(Step, Step),
}
