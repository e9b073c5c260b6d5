//! Where the records of a raw $MFT stand in its file.
use fields::RecordNumber;

/// How the records of a raw $MFT stand in its file: one behind another, from its front on.
#[derive(Clone, Copy, Debug, PartialEq, Eq)]
pub struct Layout {
    /// The bytes of a record.
    pub size: u16,
    /// The number of the record at place 0.
    pub first: RecordNumber,
    /// The bytes of the file.
    pub length: u64,
}

impl Layout {
    ghost use Rattle.std.specs.Prelude.{◌≡◌};
    ghost use Rattle.mft.specs.Layout.{place_in};

    /// Where the record with a number stands; none where it is in front of the first, or not wholly in the file.
    #[tactic(auto, unfolding(crate::specs::Layout::place_in))]
    pub fn place(self, number: RecordNumber) -> Option<u64>
        ensures { result ≡ place_in self number }
    {
        let position = number.0.checked_sub(self.first.0)?;
        let place = u128::from(self.size) * u128::from(position);
        if u128::from(self.length) < place + u128::from(self.size) {
            return None;
        }
        Some(place as u64)
    }
}
