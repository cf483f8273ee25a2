//! A printed run, checked from the words and bytes that come in to the status and the line that go out.

mod findings;
mod lines;
mod parting;
mod top;
mod verdict;

pub use top::check;
