//! A name as part of one line: characters that end a line or speak to a terminal are written by their codes.
ghost use Rattle.std.specs.Prelude.{◌≡◌, ◌++◌, ◌<◌, OnOk};
ghost use Rattle.std.specs.Char.{digit_char, encode_utf8};
ghost use Rattle.std.specs.Char.Escape.{escape_unicode};
ghost use Rattle.std.specs.Str.{chars, encode_utf8_all};
ghost use Rattle.std.specs.String.{string_bytes};
ghost use Rattle.naming.specs.Shown.{is_hidden, shown_char, shown_of, coded, is_quoted, string_char, string_of};

use std::alloc::AllocError;

const HEXADECIMAL: u32 = 16;

// Control characters, and those that end a line or turn the direction of what follows.
#[tactic(auto, unfolding(crate::specs::Shown::is_hidden))]
fn is_hidden(character: char) -> bool
    ensures { result ≡ is_hidden character }
{
    character.is_control()
        || matches!(
            character,
            '\u{61C}' | '\u{200E}'..='\u{200F}' | '\u{2028}'..='\u{202E}' | '\u{2066}'..='\u{2069}'
        )
}

// `\u{..}`, as Rust writes it.
fn put_escape(line: &mut String, character: char) -> Result<(), AllocError>
    ensures { OnOk result
        (string_bytes line.new ≡ string_bytes line.old ++ encode_utf8_all (escape_unicode character)) }
{
    for glyph in character.escape_unicode() {
        line.push(glyph)?;
    }
    Ok(())
}

#[tactic(auto, unfolding(crate::specs::Shown::shown_char))]
fn put_shown_char(line: &mut String, character: char) -> Result<(), AllocError>
    ensures { OnOk result (string_bytes line.new ≡ string_bytes line.old ++ encode_utf8_all (shown_char character)) }
{
    if is_hidden(character) {
        return put_escape(line, character);
    }
    if character == '\\' {
        line.push('\\')?;
    }
    line.push(character)
}

/// A text as a line of text shows it.
pub(crate) fn put_shown(line: &mut String, text: &str) -> Result<(), AllocError>
    ensures { OnOk result
        (string_bytes line.new ≡ string_bytes line.old ++ encode_utf8_all (shown_of (chars text.now))) }
{
    for character in text.chars() {
        put_shown_char(line, character)?;
    }
    Ok(())
}

fn put_digit(line: &mut String, digit: u32) -> Result<(), AllocError>
    requires { digit < 16 }
    ensures { OnOk result (string_bytes line.new ≡ string_bytes line.old ++ encode_utf8 (digit_char digit)) }
{
    line.push(char::from_digit(digit, HEXADECIMAL).unwrap())
}

// `\uXXXX`, as JSON writes it.
fn put_coded(line: &mut String, character: char) -> Result<(), AllocError>
    ensures { OnOk result (string_bytes line.new ≡ string_bytes line.old ++ encode_utf8_all (coded character)) }
{
    let code = u32::from(character);
    line.push_str("\\u")?;
    put_digit(line, code / 0x1000 % HEXADECIMAL)?;
    put_digit(line, code / 0x100 % HEXADECIMAL)?;
    put_digit(line, code / 0x10 % HEXADECIMAL)?;
    put_digit(line, code % HEXADECIMAL)
}

#[tactic(auto, unfolding(crate::specs::Shown::is_quoted))]
fn is_quoted(character: char) -> bool
    ensures { result ≡ is_quoted character }
{
    character == '"' || character == '\\'
}

#[tactic(auto, unfolding(crate::specs::Shown::string_char))]
fn put_string_char(line: &mut String, character: char) -> Result<(), AllocError>
    ensures { OnOk result (string_bytes line.new ≡ string_bytes line.old ++ encode_utf8_all (string_char character)) }
{
    if is_hidden(character) {
        return put_coded(line, character);
    }
    if is_quoted(character) {
        line.push('\\')?;
    }
    line.push(character)
}

/// A text as it stands in a string of JSON.
pub(crate) fn put_string(line: &mut String, text: &str) -> Result<(), AllocError>
    ensures { OnOk result
        (string_bytes line.new ≡ string_bytes line.old ++ encode_utf8_all (string_of (chars text.now))) }
{
    for character in text.chars() {
        put_string_char(line, character)?;
    }
    Ok(())
}
