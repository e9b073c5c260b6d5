//! The name in a file name value (RULES 26.1, 26.2).
ghost use Rattle.std.specs.Prelude.{◌≡◌};
ghost use Rattle.std.specs.Option.{option_map};
ghost use Rattle.filename.specs.Name.{name_of, shown_name};

/// What a name is for (RULES 26.1).
#[derive(Clone, Copy, Debug, PartialEq, Eq)]
pub enum Namespace {
    Posix,
    Win32,
    Dos,
    Win32AndDos,
    Other(u8),
}

/// A name: its namespace, and the bytes of its units, two for each, the low one first.
#[derive(Clone, Copy)]
pub struct FileName<'a> {
    pub namespace: Namespace,
    pub bytes: &'a [u8],
}

const UNITS: usize = 64;

const NAMESPACE: usize = 65;

const NAME: usize = 66;

impl Namespace {
    ghost use Rattle.std.specs.Prelude.{◌≡◌};
    ghost use Rattle.filename.specs.Name.{namespace_of, is_long};

    // The one with a number.
    #[tactic(auto, unfolding(crate::specs::Name::namespace_of))]
    fn of(number: u8) -> Namespace
        ensures { result ≡ namespace_of number }
    {
        match number {
            0 => Namespace::Posix,
            1 => Namespace::Win32,
            2 => Namespace::Dos,
            3 => Namespace::Win32AndDos,
            _ => Namespace::Other(number),
        }
    }

    /// Whether a name of it is a long one, and not the short one that DOS programs see.
    #[tactic(auto, unfolding(crate::specs::Name::is_long))]
    pub fn is_long(self) -> bool
        ensures { result ≡ is_long self }
    {
        match self {
            Namespace::Posix | Namespace::Win32 | Namespace::Win32AndDos => true,
            Namespace::Dos | Namespace::Other(_) => false,
        }
    }
}

/// The name that a value has; a value that ends before its name does has none.
#[tactic(auto, unfolding(crate::specs::Name::name_of))]
pub fn name_of(value: &[u8]) -> Option<FileName<'_>>
    ensures { option_map shown_name result ≡ name_of value.now }
{
    if value.len() < NAME {
        return None;
    }
    let end = NAME + 2 * usize::from(value[UNITS]);
    if value.len() < end {
        return None;
    }
    Some(FileName {
        namespace: Namespace::of(value[NAMESPACE]),
        bytes: &value[NAME..end],
    })
}
