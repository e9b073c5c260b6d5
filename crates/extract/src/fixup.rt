//! The fixup of a raw record (RULES 23.3 to 23.6). On the disk the last two bytes of each 512 are a check number, the
//! same for the whole record, and an array in the record keeps what belongs there.
ghost use Rattle.std.specs.Prelude.{◌≡◌, ◌+◌, ◌*◌, ◌/◌, ◌^◌, ◌≤◌, ◌<◌, true, length, take, drop};
ghost use Rattle.extract.specs.Fixup.{array_at, pair_at, kept_at, good_array, pairs_agree, fixed_up, verdict_of};
ghost use Rattle.extract.specs.Judge.{told_verdict};
ghost use Rattle.extract.specs.Told.{IsSized};

use fields::Cause;
use fields::bytes::u16_at;
use record::is_file;

/// The bytes that one pair guards, the pair itself among them.
pub const SECTOR_SIZE: usize = 512;

/// The bytes of a pair, of the check number and of each number that the array keeps.
const PAIR_SIZE: usize = 2;

/// What becomes of a raw record.
#[derive(Clone, Copy, Debug, PartialEq, Eq)]
pub enum Judged {
    /// It does not begin with FILE.
    LeftOut,
    /// 29 or 30.
    Refused(Cause),
    /// It is written, fixed up.
    Sound,
}

// Where the pair of the i-th 512 bytes stands.
fn pair_at(i: usize) -> usize
    requires { i < 2 ^ 32 }
    ensures { result ≡ pair_at i }
{
    SECTOR_SIZE * i + (SECTOR_SIZE - PAIR_SIZE)
}

// Whether the array is as 29 wants it. An array of the right size is shorter than 512 bytes, so it overlaps a pair
// exactly where it begins too late in its own 512 bytes.
fn good_array(raw: &[u8]) -> bool
    requires { IsSized raw.now }
    ensures { result ≡ good_array raw.now }
{
    let at = u16_at(raw, 4) as usize;
    let count = u16_at(raw, 6) as usize;
    count == raw.len() / SECTOR_SIZE + 1
        && at + PAIR_SIZE * count <= raw.len()
        && at % SECTOR_SIZE + PAIR_SIZE * count <= SECTOR_SIZE - PAIR_SIZE
}

// Whether each pair is the check number, which stands first in the array.
fn pairs_agree(raw: &[u8]) -> bool
    requires sized { IsSized raw.now }
    requires good { good_array raw.now ≡ true }
    ensures { result ≡ pairs_agree raw.now (length raw.now / 512) }
{
    let check = u16_at(raw, u16_at(raw, 4) as usize);
    for i in 0..raw.len() / SECTOR_SIZE {
        if u16_at(raw, pair_at(i)) != check {
            return false;
        }
    }
    true
}

/// What becomes of a raw record, by 29 and 30.
#[tactic(auto, unfolding(crate::specs::Fixup::verdict_of))]
pub(crate) fn judge(raw: &[u8]) -> Judged
    requires { IsSized raw.now }
    ensures { told_verdict raw.now result ≡ verdict_of raw.now }
{
    if !is_file(raw) {
        return Judged::LeftOut;
    }
    if !good_array(raw) {
        return Judged::Refused(Cause::FixupArray);
    }
    if !pairs_agree(raw) {
        return Judged::Refused(Cause::FixupPair);
    }
    Judged::Sound
}

// What the array keeps for the place of pair i.
fn kept(raw: &[u8], i: usize) -> &[u8]
    requires good { good_array raw.now ≡ true }
    requires inside { i < length raw.now / 512 }
    ensures pair { result.now ≡ take 2 (drop (kept_at raw.now i) raw.now) }
    ensures long { length result.now ≡ 2 }
{
    let from = u16_at(raw, 4) as usize + PAIR_SIZE * (i + 1);
    &raw[from..from + PAIR_SIZE]
}

/// A sound record, fixed up, into a room of its length.
pub(crate) fn fix_up(raw: &[u8], room: &mut [u8])
    requires good { good_array raw.now ≡ true }
    requires long { length room.old ≡ length raw.now }
    requires sized { IsSized raw.now }
    ensures { room.new ≡ fixed_up raw.now }
{
    room.copy_from_slice(raw);
    for i in 0..raw.len() / SECTOR_SIZE {
        let at = pair_at(i);
        room[at..at + PAIR_SIZE].copy_from_slice(kept(raw, i));
    }
}
