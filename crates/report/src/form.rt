//! The form of a line (RULES 18.11).
ghost use Rattle.std.specs.Prelude.{◌+◌, ◌≤◌, length};
ghost use Rattle.text.specs.Put.{Put};
ghost use Rattle.report.specs.Form.{form_text};
ghost use Rattle.report.specs.Room.{most_json};

use crate::Line;
use crate::json::put_json;
use crate::put::put_line;

/// No line is longer, in either form, in bytes.
pub const MOST_LINE: usize = 512;

/// As text, or as one object of JSON a line.
#[derive(Clone, Copy, Debug, PartialEq, Eq)]
pub enum Form {
    Text,
    Json,
}

/// Puts a line in one of the forms behind a buffer's first bytes, of which there are `at`; answers where it ends.
pub fn put_formed(form: Form, out: &mut [u8], at: usize, line: &Line) -> usize
    requires { at + most_json ≤ length out.old }
    ensures { Put out.old at out.new result (form_text form line.now) most_json }
{
    match form {
        Form::Text => put_line(out, at, line),
        Form::Json => put_json(out, at, line),
    }
}
