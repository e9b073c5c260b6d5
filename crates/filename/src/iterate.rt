//! The names of a file, one by one (RULES 26.3).
ghost use Rattle.std.specs.Prelude.{◌≡◌, option_copied};
ghost use Rattle.items.specs.OfFile.{of_file};
ghost use Rattle.filename.specs.Names.{name_by};

use crate::name_of;
use items::{File, Item, Items};
use record::Value;

/// The names of a file that are to come.
#[derive(Clone, Copy)]
pub struct Names<'a> {
    pub file: File<'a>,
    pub items: Items<'a>,
}

// The type of an attribute whose value is a file name.
const FILE_NAME: u32 = 0x30;

// The long name of an item, if it has one.
#[tactic(auto, unfolding(crate::specs::Names::name_by, crate::specs::Names::value_by))]
pub(crate) fn long_name<'a>(file: &File<'a>, item: &Item) -> Option<&'a [u8]>
    ensures { option_copied result ≡ of_file name_by file.now item.now }
{
    if item.attribute.ty != FILE_NAME {
        return None;
    }
    let Ok(within) = file.lookup(item.file, 0) else {
        return None;
    };
    let Ok(Value::Resident(value)) = within.value(item.attribute.offset) else {
        return None;
    };
    let name = name_of(value.bytes)?;
    if name.namespace.is_long() {
        Some(name.bytes)
    } else {
        None
    }
}

impl<'a> Iterator for Names<'a> {
    ghost use Rattle.std.specs.Iterator.{item_count, YieldsFirstBy};
    ghost use Rattle.filename.specs.Rest.{rest, bytes_of};

    type Item = &'a [u8];

    ghost next_gives = { YieldsFirstBy bytes_of rest };

    ghost remaining = { item_count rest };

    #[tactic(auto, using(crate::proofs::Turns::turns))]
    fn next(&mut self) -> Option<&'a [u8]> {
        while let Some(answer) = self.items.next() {
            let Ok(item) = answer else {
                return None;
            };
            if let Some(name) = long_name(&self.file, &item) {
                return Some(name);
            }
        }
        None
    }
}
