//! How a record is listed.
use report::Form;

/// How a record is listed.
#[derive(Clone, Copy, Debug, PartialEq, Eq)]
pub struct Manner {
    pub form: Form,
    /// Whether the file's name stands behind its number.
    pub named: bool,
}
