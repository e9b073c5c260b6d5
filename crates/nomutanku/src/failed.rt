//! Why the command goes no further.
ghost use Rattle.std.specs.Prelude.{◌≡◌};

use command::Status;
use std::alloc::AllocError;
use std::io;

/// Why the command goes no further: there is no memory for its own work, or an output takes no more.
#[derive(Clone, Copy)]
pub enum Failed {
    Memory,
    Output(io::Error),
}

impl From<AllocError> for Failed {
    ghost use Rattle.nomutanku.specs.declared.failed.Failed.TheVariants.{Memory};

    ghost from_gives = { λ _ failed. failed ≡ Memory };

    fn from(_error: AllocError) -> Failed {
        Failed::Memory
    }
}

impl Failed {
    ghost use Rattle.nomutanku.specs.Answers.{status_of};

    /// The exit status that follows.
    pub fn status(self) -> Status
        ensures { result ≡ status_of self }
    {
        match self {
            Failed::Memory => Status::Unreadable,
            Failed::Output(_) => Status::NotWritten,
        }
    }

    /// Says why, on standard error; not where a pipe's reader went away, which asked for no more.
    pub fn tell(self, rt: &impl Eprint) {
        let _ = match self {
            Failed::Memory => rt.eprintln("nomutanku: out of memory"),
            Failed::Output(error) if error.kind() == io::ErrorKind::BrokenPipe => Ok(()),
            Failed::Output(error) => eprintln!(rt; "nomutanku: standard output: {error}"),
        };
    }
}
