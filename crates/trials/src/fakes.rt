//! A reader and a writer that fail when they are told to. Neither has memory of its own, so that what is allocated in a
//! test is the library's.
use std::io;
use std::io::{ErrorKind, Read, Write};

// So many calls come to one that is answered, where there are interruptions.
const CALLS_TO_ONE: usize = 3;

/// Which calls of a reader or a writer go wrong, and how many there were.
#[derive(Clone, Copy)]
pub(crate) struct Trouble {
    pub calls: usize,
    /// The call that fails, counted from 1; 0 for none.
    pub fails_at: usize,
    pub kind: ErrorKind,
    /// Whether interruptions come before each call that is answered.
    pub interrupts: bool,
}

impl Trouble {
    /// None but interruptions, if these are wanted.
    pub fn none(interrupts: bool) -> Trouble {
        Trouble {
            calls: 0,
            fails_at: 0,
            kind: ErrorKind::Interrupted,
            interrupts,
        }
    }

    fn next(&mut self) -> io::Result<()> {
        self.calls = self.calls.saturating_add(1);
        if self.calls == self.fails_at {
            return Err(io::Error::from(self.kind));
        }
        if self.interrupts && self.calls % CALLS_TO_ONE != 0 {
            return Err(io::Error::from(ErrorKind::Interrupted));
        }
        Ok(())
    }
}

/// A reader that gives its bytes in pieces.
#[derive(Clone, Copy)]
pub(crate) struct Input<'a> {
    pub rest: &'a [u8],
    pub piece: usize,
    pub trouble: Trouble,
}

impl Read for Input<'_> {
    fn read(&mut self, buf: &mut [u8]) -> io::Result<usize> {
        self.trouble.next()?;
        let rest = self.rest;
        let count = buf.len().min(self.piece).min(rest.len());
        buf[..count].copy_from_slice(&rest[..count]);
        self.rest = &rest[count..];
        Ok(count)
    }
}

/// A writer that takes at most so many bytes at once, and looks whether they are those that it waits for.
#[derive(Clone, Copy)]
pub(crate) struct Output<'a> {
    pub expected: &'a [u8],
    pub most: usize,
    pub trouble: Trouble,
    pub taken: usize,
    pub is_front: bool,
}

impl<'a> Output<'a> {
    pub fn new(expected: &'a [u8], most: usize, trouble: Trouble) -> Output<'a> {
        Output {
            expected,
            most,
            trouble,
            taken: 0,
            is_front: true,
        }
    }

    /// Waits for the same bytes again.
    pub fn begin(&mut self) {
        self.taken = 0;
    }

    /// Whether it took all that it waited for, and nothing else.
    pub fn is_whole(&self) -> bool {
        self.is_front && self.taken == self.expected.len()
    }

    /// Whether it took a front of that, and not all.
    pub fn is_part(&self) -> bool {
        self.is_front && self.taken < self.expected.len()
    }
}

impl Write for Output<'_> {
    fn write(&mut self, buf: &[u8]) -> io::Result<usize> {
        if let Err(error) = self.trouble.next() {
            // this trouble is a write that takes nothing
            if error.kind() == ErrorKind::WriteZero {
                return Ok(0);
            }
            return Err(error);
        }
        let count = buf.len().min(self.most);
        let rest = self.expected.get(self.taken..).unwrap_or(&[]);
        self.is_front = self.is_front && rest.starts_with(&buf[..count]);
        self.taken = self.taken.saturating_add(count);
        Ok(count)
    }

    fn flush(&mut self) -> io::Result<()> {
        Ok(())
    }
}
