//! The listing of a table, in a lent buffer.
ghost use Rattle.std.specs.Prelude.{◌≡◌, ◌++◌, List, ℕ, length, take, false};
ghost use Rattle.lines.specs.Line.{lines_text};
ghost use Rattle.lines.specs.Listing.{most_parts, listing_of};
ghost use Rattle.lines.specs.Page.{page_of, Lists};

use crate::Lines;
use crate::line::MOST_LINE;
use crate::put::put_line;
use parts::{MOST_PARTS, Part};

/// How many bytes of the buffer the listing fills, and whether there is more of it than there was room for.
// The buffer is the caller's, a program in C among them, and so its bytes are told by a count.
#[derive(Clone, Copy)]
pub struct Listed {
    pub end: usize,
    pub more: bool,
}

impl<'a> Lines<'a> {
    ghost use Rattle.std.specs.Prelude.{◌≡◌, ◌++◌, List, length, take};
    ghost use Rattle.parts.specs.declared.Part.{Part};
    ghost use Rattle.lines.specs.Line.{lines_text};
    ghost use Rattle.lines.specs.Page.{page_of, none, Pages};
    ghost use Rattle.lines.specs.Rest.{rest};

    /// Whether no line is to come: a walk has one at least.
    #[tactic(auto, using(crate::proofs::Ends::ends))]
    pub fn is_done(&self) -> bool
        ensures { (ps : List Part) → result ≡ none (rest ps self.now) }
    {
        self.first.is_none() && self.walk.is_none() && self.last.is_none()
    }

    /// Line after line from the front of a buffer, as long as 256 bytes are left; how many bytes they fill. None is
    /// lost: the next call goes on behind them.
    pub fn fill(&mut self, parts: &mut [Part], out: &mut [u8]) -> usize
        ensures page { Pages (page_of (length out.old) (rest parts.old self.old)) (rest parts.new self.new)
            out.old out.new result }
        ensures none_lost { take result out.new ++ lines_text (rest parts.new self.new)
            ≡ lines_text (rest parts.old self.old) }
        ensures size { length parts.new ≡ length parts.old }
    {
        // The lent buffer with a place in it: text says why.
        let mut at: usize = 0;
        while MOST_LINE <= out.len() - at {
            let Some(line) = self.next(parts) else {
                return at;
            };
            at = put_line(out, at, &line);
        }
        at
    }
}

/// The listing of a table, into a lent buffer: all of it, or its first lines where 256 bytes are not left for the next
/// one.
pub fn list(table: &[u8], out: &mut [u8]) -> Listed
    ensures page { Lists (page_of (length out.old) (listing_of most_parts table.now)) out.old out.new result }
    ensures front { (rest : List ℕ) ×
        (take result.end out.new ++ rest ≡ lines_text (listing_of most_parts table.now)) }
    ensures whole { result.more ≡ false → take result.end out.new ≡ lines_text (listing_of most_parts table.now) }
{
    let mut parts = [Part::BLANK; MOST_PARTS];
    let mut lines = Lines::of_any(table);
    let end = lines.fill(&mut parts, out);
    Listed {
        end,
        more: !lines.is_done(),
    }
}
