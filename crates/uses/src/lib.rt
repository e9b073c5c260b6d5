//! Callers of the iterators: what a program does with the attributes of a record and with the items of a file, by the
//! adapters that every iterator has. Each is proved from the iterator's contract alone.
#![tactic(auto)]

ghost use Rattle.std.specs.Prelude.{◌≡◌, find, map, IfOk};
ghost use Rattle.std.specs.List.{count_by};
ghost use Rattle.std.specs.Option.{option_map};
ghost use Rattle.fields.specs.Told.{told};
ghost use Rattle.record.specs.Walk.{attributes_of};
ghost use Rattle.items.specs.Calls.{items_of};
ghost use Rattle.items.specs.OfFile.{of_file};
ghost use Rattle.uses.specs.Chains.{stops_at, is_given, units_in};

use fields::Refusal;
use items::File;
use record::{Attribute, Record};
use std::alloc::{AllocError, Global};

/// The attributes of a record, in the order of the raw walk, and the refusal where one stops it (RULES 5).
pub fn attributes(
    within: &Record<'_>,
    alloc: Global,
) -> Result<Vec<Result<Attribute, Refusal>>, AllocError>
    ensures { IfOk result (λ v. map told v.items ≡ attributes_of within.now.bytes.now within.now.number) }
{
    within.attributes().collect(alloc)
}

/// The first attribute of a type, or the refusal that the raw walk comes to before one.
pub fn first_of_type(within: &Record<'_>, ty: u32) -> Option<Result<Attribute, Refusal>>
    ensures { option_map told result ≡ find (stops_at ty) (attributes_of within.now.bytes.now within.now.number) }
{
    within.attributes().find(|answer| match answer {
        Ok(h) => h.ty == ty,
        Err(_) => true,
    })
}

/// How many items a file has: those that its walk gives before the end or a refusal (RULES 14).
#[tactic(auto, using(crate::proofs::Few::few_items))]
pub fn item_count(file: &File<'_>) -> usize
    ensures { result ≡ count_by is_given (of_file items_of file.now) }
{
    file.items().filter(|answer| answer.is_ok()).count()
}

/// How many units of 16 bits the names of a file's items have in all, or the refusal that stops the walk.
#[tactic(auto, using(crate::proofs::Few::few_items))]
pub fn name_units(file: &File<'_>) -> Result<usize, Refusal>
    ensures { told result ≡ units_in 0 (of_file items_of file.now) }
{
    let mut units = 0;
    for answer in file.items() {
        units += usize::from(answer?.attribute.name_units);
    }
    Ok(units)
}

#[cfg(test)]
mod tests {
    use super::*;
    use fields::RecordNumber;
    use std::test::Fail;

    // No contract rules out that memory runs out: so that there is some, and the attributes come, is run.
    #[test]
    fn attributes_are_collected(rt: HostRuntime) -> Result<(), Fail> {
        let mut bytes = [0u8; 128];
        bytes[..4].copy_from_slice(b"FILE");
        bytes[20] = 56;
        // used up to the end marker
        bytes[24] = 116;
        // two attributes of 32 and of 24 bytes, then the end marker
        bytes[56] = 16;
        bytes[60] = 32;
        bytes[88] = 128;
        bytes[92] = 24;
        bytes[112..116].copy_from_slice(&[255; 4]);
        let within = Record::open(&bytes, RecordNumber(40))?;
        assert_eq!(rt; attributes(&within, rt.alloc())?.len(), 2);
        Ok(())
    }
}
