//! Targets that are served over a stream of frames: each frame is answered, and replied to, as soon as it is
//! whole.
#![tactic(auto)]

mod findings;
mod open_service;
mod replies;
mod service;
mod streaming;
mod top;

pub use top::serve;
