//! What is asked of numbers alone.
use crate::tell::Numbered;

pub fn known<'a>(ty: u32) -> Numbered<'a> {
    Numbered("is", u64::from(fields::known_type(ty)))
}

pub fn flags<'a>(flags: u16) -> Numbered<'a> {
    Numbered("flags", u64::from(fields::attribute_flags(flags)))
}
