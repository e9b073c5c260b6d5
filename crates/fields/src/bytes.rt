//! Numbers of 2, 4, 6 and 8 bytes, the lowest byte first (RULES 1), for callers that know that the bytes are there.
// Each asks for its bytes and answers with no Option: a caller has tested the whole header once, and would test
// each field again.
ghost use Rattle.std.specs.Prelude.{◌≡◌, ◌+◌, ◌≤◌, length, slice_range};
ghost use Rattle.fields.specs.Le.{le};

// The N bytes from `at` on.
fn bytes_at<const N: usize>(s: &[u8], at: usize) -> [u8; N]
    requires { at + N ≤ length s.now }
    ensures { result ≡ slice_range s.now at (at + N) }
{
    let mut bytes = [0; N];
    bytes.copy_from_slice(&s[at..at + N]);
    bytes
}

/// The number in the two bytes from `at` on.
#[tactic(auto, unfolding(crate::specs::Le::le))]
pub fn u16_at(s: &[u8], at: usize) -> u16
    requires { at + 2 ≤ length s.now }
    ensures { result ≡ le 2 s.now at }
{
    u16::from_le_bytes(bytes_at(s, at))
}

/// The number in the four bytes from `at` on.
#[tactic(auto, unfolding(crate::specs::Le::le))]
pub fn u32_at(s: &[u8], at: usize) -> u32
    requires { at + 4 ≤ length s.now }
    ensures { result ≡ le 4 s.now at }
{
    u32::from_le_bytes(bytes_at(s, at))
}

/// The number in the six bytes from `at` on: std has no integer of six bytes, so it is made of two.
pub fn u48_at(s: &[u8], at: usize) -> u64
    requires { at + 6 ≤ length s.now }
    ensures { result ≡ le 6 s.now at }
{
    let low = u64::from(u32_at(s, at));
    let high = u64::from(u16_at(s, at + 4));
    low + 0x1_0000_0000 * high
}

/// The number in the eight bytes from `at` on.
#[tactic(auto, unfolding(crate::specs::Le::le))]
pub fn u64_at(s: &[u8], at: usize) -> u64
    requires { at + 8 ≤ length s.now }
    ensures { result ≡ le 8 s.now at }
{
    u64::from_le_bytes(bytes_at(s, at))
}
