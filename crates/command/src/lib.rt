//! What the command decides: how much of an input is read and what is written of it, the table that is made of an
//! extract or of two tables, the exit status, the reason that is told on standard error, how a file's name is shown,
//! and what the number of a refusal means.
#![tactic(auto)]

mod absence;
mod asked;
mod counts;
mod explain;
mod extraction;
mod flaw;
mod given;
pub mod laws;
mod make;
mod merge_failure;
mod merge_message;
mod merging;
mod misfit;
mod names;
mod part;
mod read;
mod reason;
mod run;
mod status;
mod unmade;

pub use absence::Absence;
pub use asked::Asked;
pub use counts::{Counts, FirstRefused, Written};
pub use explain::cause_of;
pub use extraction::{Extraction, size_told};
pub use flaw::Flaw;
pub use given::Given;
pub use make::{Made, extract_input, extract_rest};
pub use merge_failure::{MergeFailure, Side};
pub use merge_message::MergeMessage;
pub use merging::{MergedTable, merge_tables, read_table};
pub use misfit::Misfit;
pub use names::{Shown, heading};
pub use part::read_front;
pub use read::{read_input, read_once};
pub use reason::Reason;
pub use run::{report_input, write_report};
pub use status::Status;
pub use unmade::Unmade;
