// Fills of a lent list of bytes along any walk that moves by columns. The loops know nothing
// of sections: a turn only adds and compares, by moves that are constant (bytes.rt) or that are
// learnt when they are first made (columns.rt and classes.rt; tables.rt chooses). What repeats with
// the column is in periods.rt, and copies.rt has entries that repeat.
#![tactic(auto)]

pub mod bytes;
mod classes;
mod columns;
pub mod copies;
pub mod learning;
pub mod moves;
pub mod periods;
mod spread;
pub mod tables;
