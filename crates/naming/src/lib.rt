//! A file's name for people, and back: the line that says whose listing follows, with the name behind the number, and
//! the bytes of a name that someone types, as crate `filename` compares them.
#![tactic(auto)]

mod escape;
pub mod laws;
mod line;
mod units;

pub use line::file_line;
pub use units::units_of;
