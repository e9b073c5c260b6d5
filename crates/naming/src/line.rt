//! The line that stands before a file's listing: its number, and its name.
ghost use Rattle.std.specs.Prelude.{◌≡◌, ◌++◌, codes, OnOk, IfOk, option_copied};
ghost use Rattle.std.specs.String.{string_bytes};
ghost use Rattle.lines.specs.Line.{newline};
ghost use Rattle.report.specs.Json.{opened, closed};
ghost use Rattle.naming.specs.Line.{text_name, json_name, file_line};

use crate::escape::{put_shown, put_string};
use crate::units::text_of;
use fields::RecordNumber;
use report::Form;
use std::alloc::{AllocError, Global};

fn put_text_name(alloc: Global, line: &mut String, name: Option<&[u8]>) -> Result<(), AllocError>
    ensures { OnOk result (string_bytes line.new ≡ string_bytes line.old ++ text_name (option_copied name.entry)) }
{
    let Some(name) = name else {
        return Ok(());
    };
    let text = text_of(alloc, name)?;
    line.push(' ')?;
    put_shown(line, &text)
}

fn put_json_name(alloc: Global, line: &mut String, name: Option<&[u8]>) -> Result<(), AllocError>
    ensures { OnOk result (string_bytes line.new ≡ string_bytes line.old ++ json_name (option_copied name.entry)) }
{
    let Some(name) = name else {
        return Ok(());
    };
    let text = text_of(alloc, name)?;
    line.push_str(",\"name\":\"")?;
    put_string(line, &text)?;
    line.push('"')
}

fn file_text(alloc: Global, digits: &str, name: Option<&[u8]>) -> Result<Vec<u8>, AllocError>
    ensures { IfOk result (λ line. line.items
        ≡ codes "file " ++ digits.now ++ text_name (option_copied name.entry) ++ newline) }
{
    let mut line = String::from_str(alloc, "file ")?;
    line.push_str(digits)?;
    put_text_name(alloc, &mut line, name)?;
    line.push('\n')?;
    Ok(line.into_bytes())
}

fn file_json(alloc: Global, digits: &str, name: Option<&[u8]>) -> Result<Vec<u8>, AllocError>
    ensures { IfOk result (λ line. line.items
        ≡ opened "file" ++ (codes ",\"number\":" ++ digits.now ++ json_name (option_copied name.entry) ++ closed)) }
{
    let mut line = String::from_str(alloc, "{\"line\":\"file\",\"number\":")?;
    line.push_str(digits)?;
    put_json_name(alloc, &mut line, name)?;
    line.push_str("}\n")?;
    Ok(line.into_bytes())
}

/// The line that stands before what is told of a record of an $MFT: `file N`, or `file N NAME` where a name is handed
/// in, as the bytes of its units, the low one first; or an object of JSON that says the same. An odd last byte of a
/// name is in no unit, and is passed over.
pub fn file_line(
    alloc: Global,
    form: Form,
    number: RecordNumber,
    name: Option<&[u8]>,
) -> Result<Vec<u8>, AllocError>
    ensures { IfOk result (λ line. line.items ≡ file_line form number (option_copied name.entry)) }
{
    let mut digits = itoa::Buffer::new();
    let digits = digits.format(number.0);
    match form {
        Form::Text => file_text(alloc, digits, name),
        Form::Json => file_json(alloc, digits, name),
    }
}

#[cfg(test)]
mod tests {
    use super::*;
    use std::process::Abort;
    use std::test::Fail;

    const NUMBER: RecordNumber = RecordNumber(64);

    fn lines_are(
        rt: &impl Abort,
        alloc: Global,
        name: Option<&[u8]>,
        text: &str,
        json: &str,
    ) -> Result<(), AllocError> {
        let line = file_line(alloc, Form::Text, NUMBER, name)?;
        assert_eq!(rt; line.as_slice(), text.as_bytes());
        let line = file_line(alloc, Form::Json, NUMBER, name)?;
        assert_eq!(rt; line.as_slice(), json.as_bytes());
        Ok(())
    }

    // A body that gives up for want of memory is proved too: that the lines come is run.
    #[test]
    fn lines_come(rt: HostRuntime) -> Result<(), Fail> {
        lines_are(
            &rt,
            rt.alloc(),
            None,
            "file 64\n",
            "{\"line\":\"file\",\"number\":64}\n",
        )?;
        lines_are(
            &rt,
            rt.alloc(),
            Some(&[]),
            "file 64 \n",
            "{\"line\":\"file\",\"number\":64,\"name\":\"\"}\n",
        )?;
        // e with its two dots apart, and a pair of surrogates
        lines_are(
            &rt,
            rt.alloc(),
            Some(&[0x65, 0, 0x08, 0x03, 0x3D, 0xD8, 0x00, 0xDE]),
            "file 64 e\u{308}\u{1F600}\n",
            "{\"line\":\"file\",\"number\":64,\"name\":\"e\u{308}\u{1F600}\"}\n",
        )?;
        Ok(())
    }

    #[test]
    fn names_are_escaped(rt: HostRuntime) -> Result<(), Fail> {
        // a surrogate without its partner, and an odd last byte
        lines_are(
            &rt,
            rt.alloc(),
            Some(&[0x00, 0xD8, 0x61, 0, 0x62]),
            "file 64 \u{FFFD}a\n",
            "{\"line\":\"file\",\"number\":64,\"name\":\"\u{FFFD}a\"}\n",
        )?;
        // a newline, a quote, a backslash, and a character that turns the text's direction
        lines_are(
            &rt,
            rt.alloc(),
            Some(&[0x0A, 0, 0x22, 0, 0x5C, 0, 0x2E, 0x20]),
            "file 64 \\u{a}\"\\\\\\u{202e}\n",
            "{\"line\":\"file\",\"number\":64,\"name\":\"\\u000a\\\"\\\\\\u202e\"}\n",
        )?;
        Ok(())
    }
}
