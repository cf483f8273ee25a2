//! Parameter lists of REBUILD and REGENERATE (SBC): which targets' blocks are combined, and the
//! intermediate data that the list may bring along.
#![tactic(auto)]

mod contents;
mod decoding;
mod encoding;
mod faults;
mod lists;
mod sources;
mod tables;

pub use contents::{intermediate_in, pad_in, sources_in, stranger_in};
pub use decoding::decode;
pub use encoding::{encode, spelling_law};
pub use faults::fault_of;
pub use lists::{ParamFault, Params};
pub use sources::{Descriptor, Descriptors};
