//! Whether a file has a name (RULES 26.4).
ghost use Rattle.std.specs.Prelude.{◌≡◌, []};
ghost use Rattle.std.specs.List.{cons_option};
ghost use Rattle.items.specs.OfFile.{of_file};
ghost use Rattle.filename.specs.Names.{name_by, is_among, found_of};

use crate::iterate::long_name;
use fields::Refusal;
use items::{File, Item};

/// What is known of a name that a file may have.
#[derive(Clone, Copy, Debug, PartialEq, Eq)]
pub enum Found {
    /// The file has the name.
    Yes,
    /// The file has not: its walk came to its end.
    No,
    /// No item has the name up to this refusal, and it may stand behind.
    Unknown(Refusal),
}

// Whether an item has the name that is wanted.
#[tactic(auto, unfolding(crate::specs::Names::is_among))]
fn is_named(file: &File<'_>, item: &Item, wanted: &[u8]) -> bool
    ensures { result ≡ is_among wanted.now (cons_option (of_file name_by file.now item.now) []) }
{
    match long_name(file, item) {
        Some(name) => wanted == name,
        None => false,
    }
}

/// Whether a file has a name, handed in as the bytes of its units, the low one first: any of its names may be that
/// one, and capitals are told apart. The walk goes no further than to the name, and is made once (RULES 26.4).
#[tactic(auto, using(crate::proofs::Among::sought), unfolding(crate::specs::Names::found_of))]
pub fn find_name(file: &File<'_>, wanted: &[u8]) -> Found
    ensures { result ≡ of_file found_of file.now wanted.now }
{
    let mut items = file.items();
    while let Some(answer) = items.next() {
        match answer {
            Ok(item) => {
                if is_named(file, &item, wanted) {
                    return Found::Yes;
                }
            }
            Err(refusal) => return Found::Unknown(refusal),
        }
    }
    Found::No
}
