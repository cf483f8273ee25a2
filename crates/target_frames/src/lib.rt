//! The stream that targets are served over: an opening, and frames behind it, read from pieces of any size.
#![tactic(auto)]

mod fault;
mod frames;
mod front;
mod heads;
mod items;
mod laws;
mod splitting;

pub use fault::FrameFault;
pub use frames::Frames;
pub use items::{Item, Items};
pub use laws::{
    no_item_begins_another, pieces_join, refusals_stay, sound_items_are_read,
    streams_have_one_reading, whole_items_are_read,
};
