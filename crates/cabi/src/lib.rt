//! The listing for programs in C and in Rust to link.
#![tactic(auto)]

ghost use Rattle.std.specs.Prelude.{◌≡◌, ◌++◌, List, ℕ, length, take, false};
ghost use Rattle.lines.specs.Line.{lines_text};
ghost use Rattle.lines.specs.Listing.{most_parts, listing_of};
ghost use Rattle.lines.specs.Page.{page_of, Lists};

/// How many bytes of the buffer the listing fills, and whether there is more of it than there was room for.
// A type of its own beside that of lines, and a count beside the buffer: C needs this layout.
#[repr(C)]
#[derive(Clone, Copy)]
pub struct Filled {
    pub end: usize,
    pub more: bool,
}

// As include/nomutanku.h declares it.
const _: () = prove!(size_of::<Filled>() == 16);

const _: () = prove!(align_of::<Filled>() == 8);

/// `lines::list` for C, which include/nomutanku.h declares: each slice is a pointer, not null, and a length in bytes,
/// and the two may not overlap.
#[unsafe(no_mangle)]
pub extern "C" fn nomutanku_list(table: &[u8], out: &mut [u8]) -> Filled
    ensures page { Lists (page_of (length out.old) (listing_of most_parts table.now)) out.old out.new
        (record { end = result.end; more = result.more }) }
    ensures front { (rest : List ℕ) ×
        (take result.end out.new ++ rest ≡ lines_text (listing_of most_parts table.now)) }
    ensures whole { result.more ≡ false → take result.end out.new ≡ lines_text (listing_of most_parts table.now) }
{
    let listed = lines::list(table, out);
    Filled {
        end: listed.end,
        more: listed.more,
    }
}
