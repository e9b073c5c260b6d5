//! Reports on a table and on one record (docs/RULES.md, 18.9 to 18.11): their lines one by one, and their text or JSON
//! to a writer.
#![tactic(auto)]

mod form;
mod json;
pub mod laws;
mod line;
mod made;
mod put;
mod write;

pub use form::Form;
pub use line::{Line, State};
pub use made::{Lines, Source};
pub use write::{write_numbered, write_record, write_rows, write_table};
