//! The skip key: the stream that an item was found of, and the entries that continue it (RULES 14.9).
ghost use Rattle.std.specs.Prelude.{◌≡◌};
ghost use Rattle.items.specs.Key.{key_of, continues};

use fields::Vcn;
use list::{MOST_NAME, NamedEntry};

/// A stream that the walk passes over the rest of: its type, and its name, of `units` units of two bytes, at the front
/// of 510 bytes. What stands behind it tells nothing.
#[derive(Clone, Copy)]
pub struct Key {
    pub ty: u32,
    pub units: u8,
    pub name: [u8; MOST_NAME],
}

impl Key {
    /// The key of an entry's stream: zero past its name.
    pub fn of(e: &NamedEntry) -> Key
        ensures { result ≡ key_of e.now.entry e.now.name.now }
    {
        Key {
            ty: e.entry.ty,
            units: e.entry.name_units,
            name: e.padded(),
        }
    }

    /// Whether an entry continues the stream: it has the same type and the same name, and its own lowest VCN is not 0.
    #[tactic(auto, unfolding(crate::specs::Key::continues))]
    pub fn is_continued_by(&self, e: &NamedEntry) -> bool
        ensures { result ≡ continues self.now e.now.entry e.now.name.now }
    {
        e.entry.ty == self.ty
            && e.entry.lowest != Vcn(0)
            && e.name == &self.name[..2 * usize::from(self.units)]
    }
}
