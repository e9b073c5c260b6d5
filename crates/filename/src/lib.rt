//! The names of a file (docs/RULES.md, section 26): those that its attributes of type 48 have as their values.
#![tactic(auto)]

mod find;
mod iterate;
pub mod laws;
mod value;

ghost use Rattle.std.specs.Prelude.{◌≡◌, slice_get, option_copied};
ghost use Rattle.items.specs.OfFile.{of_file};
ghost use Rattle.filename.specs.Names.{names_of};
ghost use Rattle.filename.specs.Rest.{rest};

pub use find::{Found, find_name};
use items::File;
pub use iterate::Names;
pub use value::{FileName, Namespace, name_of};

/// The names of a file, in the order of its walk, up to its end or its first refusal: each the bytes of its units, the
/// low one first (RULES 26.3).
#[tactic(auto, unfolding(crate::specs::Names::names_of))]
pub fn names_of<'a>(file: &File<'a>) -> Names<'a>
    ensures { rest result ≡ of_file names_of file.now }
{
    Names {
        file: *file,
        items: file.items(),
    }
}

/// The name of a file: the first that it has (RULES 26.4).
pub fn first_name<'a>(file: &File<'a>) -> Option<&'a [u8]>
    ensures { option_copied result ≡ slice_get (of_file names_of file.now) 0 }
{
    names_of(file).next()
}
