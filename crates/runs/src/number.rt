//! The numbers of a run, of 1 to 8 bytes (RULES 21.3).
ghost use Rattle.std.specs.Prelude.{◌≡◌, ◌≤◌, ◌<◌, ◌+◌, ◌-◌, ◌^◌, ◌++◌, length, take, drop, replicate};
ghost use Rattle.fields.specs.Le.{le};
ghost use Rattle.runs.specs.Run.{widest, in_range, start_of};

use fields::bytes::u64_at;

/// The most bytes of a number.
pub(crate) const WIDEST: usize = 8;

/// The most that a start or a sum of lengths may be, 2^63 - 1.
const MOST: u64 = 0x7FFF_FFFF_FFFF_FFFF;

/// The number in so many bytes from `at` on, the lowest byte first.
#[tactic(auto, using(crate::proofs::Numbers::padded))]
pub(crate) fn number_at(s: &[u8], at: usize, width: usize) -> u64
    requires narrow { width ≤ widest }
    requires there { at + width ≤ length s.now }
    ensures { result ≡ le width s.now at }
{
    let mut wide = [0; WIDEST];
    wide[..width].copy_from_slice(&s[at..at + width]);
    u64_at(&wide, 0)
}

/// A start or a sum of lengths, where it is not too much.
pub(crate) fn in_range(found: u128) -> Option<u64>
    ensures { result ≡ in_range found }
{
    u64::try_from(found).ok().filter(|n| *n <= MOST)
}

/// Where a distance of so many bytes leads, from the last start: their upper half stands for distances below 0.
// In 128 bits, where neither the sum nor 256^8 is too much.
#[tactic(auto, unfolding(crate::specs::Run::start_of))]
pub(crate) fn start_of(width: u32, distance: u64, last: u64) -> Option<u64>
    requires narrow { width ≤ widest }
    ensures { result ≡ start_of width distance last }
{
    let whole = 256u128.pow(width);
    let ahead = u128::from(last) + u128::from(distance);
    let start = if 2 * u128::from(distance) < whole {
        ahead
    } else {
        ahead.checked_sub(whole)?
    };
    in_range(start)
}
