//! Records straight from a raw $MFT of any size: each is listed from its own bytes and those of the records that its
//! lists refer to, by its number, or as one of all base records in use.
#![tactic(auto)]

mod absence;
mod fetch;
mod gather;
mod gathered;
mod layout;
mod listing;
mod made;
mod manner;
mod mft;
mod ready;
mod records;
mod sole;
mod told;
mod turn;

pub use gathered::Lost;
pub use layout::Layout;
pub use manner::Manner;
pub use mft::Mft;
pub use records::Records;
pub use told::Told;
pub use turn::Turn;
