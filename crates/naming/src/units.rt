//! Names as the bytes of their UTF-16 units, the low one first (RULES 26.1): read as characters, and made of a text.
ghost use Rattle.std.specs.Prelude.{◌≡◌, ◌++◌, IfOk};
ghost use Rattle.std.specs.Str.{chars};
ghost use Rattle.std.specs.String.{string_bytes};
ghost use Rattle.naming.specs.Units.{units_in, name_chars, units_of};

use std::alloc::{AllocError, Global};

// Bytes in a unit.
const UNIT: usize = 2;

// The units that bytes are; an odd last byte is in none.
fn units_in(alloc: Global, bytes: &[u8]) -> Result<Vec<u16>, AllocError>
    ensures { IfOk result (λ units. units.items ≡ units_in bytes.now) }
{
    let mut units = Vec::new(alloc);
    for pair in bytes.chunks_exact(UNIT) {
        units.push(u16::from_le_bytes([pair[0], pair[1]]))?;
    }
    Ok(units)
}

/// A name's text; a surrogate without its partner is U+FFFD in it.
pub(crate) fn text_of(alloc: Global, name: &[u8]) -> Result<String, AllocError>
    ensures { IfOk result (λ text. chars (string_bytes text) ≡ name_chars name.now) }
{
    let units = units_in(alloc, name)?;
    String::from_utf16_lossy(alloc, &units)
}

/// The bytes of a text's UTF-16 units, the low one first: the name that `filename::find_name` asks for.
pub fn units_of(alloc: Global, name: &str) -> Result<Vec<u8>, AllocError>
    ensures { IfOk result (λ bytes. bytes.items ≡ units_of name.now) }
{
    let mut bytes = Vec::new(alloc);
    for unit in name.encode_utf16() {
        bytes.extend_from_slice(&unit.to_le_bytes())?;
    }
    Ok(bytes)
}

#[cfg(test)]
mod tests {
    use super::*;
    use std::test::Fail;

    // A body that gives up for want of memory is proved too: that the units come is run.
    #[test]
    fn units_come(rt: HostRuntime) -> Result<(), Fail> {
        let units = units_of(rt.alloc(), "Fe\u{308}\u{1F600}.")?;
        let expected = [
            0x46, 0, 0x65, 0, 0x08, 0x03, 0x3D, 0xD8, 0x00, 0xDE, 0x2E, 0,
        ];
        assert_eq!(rt; units.as_slice(), expected.as_slice());
        assert_eq!(rt; units_of(rt.alloc(), "")?.len(), 0);
        Ok(())
    }
}
