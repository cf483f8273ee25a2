//! What a call line asks of the array: the tests of a host's call, its blocks and their pieces, and what
//! becomes of each piece. For the array that serves the calls and for the judge of its journal.
#![tactic(auto)]

mod aims;
mod begins;
mod cdbs;
mod faults;
mod payloads;
mod requests;
mod settings;
mod tasks;

pub use aims::Aim;
pub use begins::{Begin, PieceRequest, begin_decided, begin_failure, begin_swap};
pub use cdbs::is_write;
pub use faults::RequestFault;
pub use payloads::Payload;
pub use requests::{Request, Transfer, raw_request, request_of};
pub use settings::{most_blocks, setting_of};
