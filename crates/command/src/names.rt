//! How a file's name is shown: in bytes that print, so that no name can pass for a line of a listing, or speak to a
//! terminal.
ghost use Rattle.std.specs.Prelude.{◌≡◌, ◌++◌, Some, OnOk, IfOk};
ghost use Rattle.std.specs.Char.Escape.{escape_ascii};
ghost use Rattle.std.specs.Fmt.{WritesOnOk};
ghost use Rattle.report.specs.declared.form.Form.TheVariants as forms;
ghost use Rattle.command.specs.Names.{shown_of, is_escaped, escaped, string_of, heading_of};

use report::Form;
use std::alloc::{AllocError, Global};
use std::fmt;

/// A name as it is shown in messages: a byte that prints as it is, but for `\'`, `\"` and `\\`, and any other as `\t`,
/// `\r`, `\n` or `\x` with two hexadecimal digits.
#[derive(Clone, Copy)]
pub struct Shown<'a>(pub &'a str);

// A byte as it is shown.
fn write_byte<W: fmt::Write>(f: &mut fmt::Formatter<W>, byte: u8) -> fmt::Result
    ensures { WritesOnOk W.write_str_gives f.old result (escape_ascii byte) f.new }
{
    for glyph in byte.escape_ascii() {
        f.write_char(glyph as char)?;
    }
    Ok(())
}

impl fmt::Display for Shown<'_> {
    ghost output = { λ s. Some (shown_of s.0.now) };

    fn fmt<W: fmt::Write>(&self, f: &mut fmt::Formatter<W>) -> fmt::Result {
        for byte in self.0.as_bytes() {
            write_byte(f, *byte)?;
        }
        Ok(())
    }
}

fn put_byte(text: &mut Vec<u8>, byte: u8) -> Result<(), AllocError>
    ensures { OnOk result (text.new.items ≡ text.old.items ++ escape_ascii byte) }
{
    for glyph in byte.escape_ascii() {
        text.push(glyph)?;
    }
    Ok(())
}

fn put_shown(text: &mut Vec<u8>, name: &str) -> Result<(), AllocError>
    ensures { OnOk result (text.new.items ≡ text.old.items ++ shown_of name.now) }
{
    for byte in name.as_bytes() {
        put_byte(text, *byte)?;
    }
    Ok(())
}

fn is_escaped(byte: u8) -> bool
    ensures { result ≡ is_escaped byte }
{
    byte == b'"' || byte == b'\\'
}

// A byte that prints, in a string of JSON: a quote and a backslash stand behind a backslash.
fn put_escaped(text: &mut Vec<u8>, byte: u8) -> Result<(), AllocError>
    ensures { OnOk result (text.new.items ≡ text.old.items ++ escaped byte) }
{
    if is_escaped(byte) {
        text.push(b'\\')?;
        text.push(byte)?;
        return Ok(());
    }
    text.push(byte)?;
    Ok(())
}

fn put_string(text: &mut Vec<u8>, shown: &[u8]) -> Result<(), AllocError>
    ensures { OnOk result (text.new.items ≡ text.old.items ++ string_of shown.now) }
{
    for byte in shown {
        put_escaped(text, *byte)?;
    }
    Ok(())
}

// A name as it is shown, in a string of JSON.
fn put_name(alloc: Global, line: &mut Vec<u8>, name: &str) -> Result<(), AllocError>
    ensures { OnOk result (line.new.items ≡ line.old.items ++ string_of (shown_of name.now)) }
{
    let mut shown = Vec::new(alloc);
    put_shown(&mut shown, name)?;
    put_string(line, &shown)
}

fn heading_text(alloc: Global, name: &str) -> Result<Vec<u8>, AllocError>
    ensures { IfOk result (λ line. line.items ≡ heading_of forms.Text name.now) }
{
    let mut line = Vec::from_array(alloc, *b"table ")?;
    put_shown(&mut line, name)?;
    line.push(b'\n')?;
    Ok(line)
}

fn heading_json(alloc: Global, name: &str) -> Result<Vec<u8>, AllocError>
    ensures { IfOk result (λ line. line.items ≡ heading_of forms.Json name.now) }
{
    let mut line = Vec::from_array(alloc, *b"{\"line\":\"table\",\"name\":\"")?;
    put_name(alloc, &mut line, name)?;
    line.extend_from_slice(b"\"}\n")?;
    Ok(line)
}

/// The line that stands before what is told of an input, where several are: `table NAME`, or an object of JSON that
/// says the same.
pub fn heading(alloc: Global, form: Form, name: &str) -> Result<Vec<u8>, AllocError>
    ensures { IfOk result (λ line. line.items ≡ heading_of form name.now) }
{
    match form {
        Form::Text => heading_text(alloc, name),
        Form::Json => heading_json(alloc, name),
    }
}
