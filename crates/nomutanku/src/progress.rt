//! How far an input is read, told on standard error while it takes long.
ghost use Rattle.std.specs.Prelude.{◌≡◌, ◌+◌, ◌≤◌, ◌⊎◌, false, None};
ghost use Rattle.std.specs.Time.{instant_nanos};

use command::Shown;
use std::io;
use std::io::Read;
use std::rt::Clock;
use std::time::Instant;

/// Bytes that are told as one.
const MEGABYTE: u64 = 1_000_000;

/// A reader that tells how many bytes it has read: once a second has gone by, and then at most once a second.
#[derive(Drop)]
pub struct Watched<'a, T, R> {
    rt: T,
    input: R,
    name: &'a str,
    read: u64,
    // when it was last told, or begun; none where nobody reads along, or there is no clock
    told: Option<Instant>,
}

impl<'a, T: Eprint + Clock + Drop, R: Read + Drop> Watched<'a, T, R> {
    /// A reader that has read nothing so far.
    pub fn new(rt: T, input: R, name: &'a str, watched: bool) -> Watched<'a, T, R>
        ensures parts { (result.rt ≡ rt) × (result.input ≡ input) × (result.name ≡ name.entry) }
        ensures read { result.read ≡ 0 }
        ensures unwatched { watched ≡ false → result.told ≡ None }
    {
        let told = if watched {
            Instant::now(&rt).ok()
        } else {
            None
        };
        Watched {
            rt,
            input,
            name,
            read: 0,
            told,
        }
    }
}

/// Tells how far it is where a second has gone by since it was last told, and gives when it was last told.
fn tell(rt: &(impl Eprint + Clock), name: &str, read: u64, told: Instant) -> Instant
    ensures { (result ≡ told) ⊎ (instant_nanos told + 1000000000 ≤ instant_nanos result) }
{
    let Ok(now) = Instant::now(rt) else {
        return told;
    };
    if now.duration_since(told).as_secs() == 0 {
        return told;
    }
    let _ = eprintln!(rt; "nomutanku: {}: {} MB read", Shown(name), read / MEGABYTE);
    now
}

impl<T: Eprint + Clock, R: Read> Read for Watched<'_, T, R> {
    ghost remaining = { λ w. R.remaining w.input };

    fn read(&mut self, buf: &mut [u8]) -> io::Result<usize> {
        let count = self.input.read(buf)?;
        self.read = self.read.saturating_add(count as u64);
        if let Some(told) = self.told {
            self.told = Some(tell(&self.rt, self.name, self.read, told));
        }
        Ok(count)
    }
}
