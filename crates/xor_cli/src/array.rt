//! The array that runs a script: a book that numbers commands and targets in memory, each of
//! which keeps the entries of its own lock.

mod book;
mod controller;
mod pieces;
mod running;
mod target;

pub use running::run;
