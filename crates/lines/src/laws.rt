//! Theorems on whole listings, each the contract of a function that does nothing.
ghost use Rattle.lines.specs.Laws.{CallsTell, FillsTell, PagesLoseNone, ListedOnce};

/// Calls of `next` from a table's first line to the first `None` give exactly its listing, the last line included.
pub fn calls_tell_the_listing()
    ensures { CallsTell }
{}

/// Calls of `fill` from a table's first line until none is to come leave exactly the text of its listing in their
/// buffers.
pub fn fills_tell_the_listing()
    ensures { FillsTell }
{}

/// A page takes lines from the front and loses none.
pub fn pages_lose_no_line()
    ensures { PagesLoseNone }
{}

/// What `list` promises settles what it answers and what it leaves in the buffer.
pub fn listings_are_settled()
    ensures { ListedOnce }
{}
