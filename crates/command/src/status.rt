//! What the exit status says.
ghost use Rattle.std.specs.Prelude.{◌≡◌, max};
ghost use Rattle.command.specs.Status.{code_of};

/// How it went, from the best to the worst.
#[derive(Clone, Copy, Debug, PartialEq, Eq)]
pub enum Status {
    /// Every listing came to its end, or an extract has no record that is refused.
    Whole,
    /// A walk was refused, and its listing stops there; or a record of an extract was, and is not in the table.
    Stopped,
    /// An input is no table, or has no such record, or no table is made of it: nothing of it is told.
    Refused,
    /// An input could not be read, or there was no memory for it.
    Unreadable,
    /// The command line asks for what there is not.
    Usage,
    /// An output did not take all of it.
    NotWritten,
}

impl Status {
    /// The exit status.
    pub fn code(self) -> u8
        ensures { result ≡ code_of self }
    {
        match self {
            Status::Whole => 0,
            Status::Stopped => 1,
            Status::Refused => 2,
            Status::Unreadable => 3,
            Status::Usage => 64,
            Status::NotWritten => 74,
        }
    }

    /// The worse of two.
    pub fn worse(self, other: Status) -> Status
        ensures { code_of result ≡ max (code_of self) (code_of other) }
    {
        if self.code() < other.code() {
            other
        } else {
            self
        }
    }
}
