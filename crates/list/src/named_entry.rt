//! An entry with its name (RULES 9.9).
ghost use Rattle.std.specs.Prelude.{◌≡◌, ◌*◌, length};

use crate::{Entry, MOST_NAME};

/// An entry with its name, which is borrowed from the part that the entry stands in.
#[derive(Clone, Copy)]
pub struct NamedEntry<'a> {
    pub entry: Entry,
    pub name: &'a [u8],
    pub ghost sized: { length name.now ≡ 2 * entry.name_units },
}

impl<'a> NamedEntry<'a> {
    ghost use Rattle.std.specs.Prelude.{◌≡◌};
    ghost use Rattle.list.specs.Named.{padded};

    /// The name in 510 bytes, zero past its end.
    pub fn padded(&self) -> [u8; MOST_NAME]
        ensures { result ≡ padded self.now.name.now }
    {
        let mut name = [0; MOST_NAME];
        name[..2 * usize::from(self.entry.name_units)].copy_from_slice(self.name);
        name
    }
}
