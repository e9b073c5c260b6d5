//! Whether standard input is listed where nothing is named.
ghost use Rattle.std.specs.Prelude.{◌≡◌};
ghost use Rattle.command.specs.Given.{is_listed};

/// What standard input is.
#[derive(Clone, Copy, Debug, PartialEq, Eq)]
pub enum Given {
    /// Someone types at it.
    Terminal,
    /// Another program, or a socket, writes to it.
    Pipe,
    /// A file, or a disk.
    File,
    /// Any other device, as `/dev/null` is.
    Device,
    Closed,
}

impl Given {
    /// Whether it is listed where nothing is named.
    pub fn is_listed(self) -> bool
        ensures { result ≡ is_listed self }
    {
        matches!(self, Given::Pipe | Given::File)
    }
}
