//! The text of a line, put at a place of a lent buffer, as in lines.
ghost use Rattle.std.specs.Prelude.{◌+◌, ◌*◌, ◌≤◌, ◌<◌, ◌++◌, [], ◌∷◌, length};
ghost use Rattle.text.specs.Decimal.{numbers, words};
ghost use Rattle.text.specs.Put.{Put};
ghost use Rattle.lines.specs.Line.{newline};
ghost use Rattle.report.specs.Room.{most_line};
ghost use Rattle.report.specs.Line.{state_text, header_text, line_text};

use crate::{Line, State};
use fields::RecordNumber;
use record::RecordHeader;
use text::{put_byte, put_words};

// A word with numbers, and the line's end.
fn put_whole(out: &mut [u8], at: usize, word: &[u8], list: &[u64]) -> usize
    requires room { at + most_line ≤ length out.old }
    requires short { length word.now + 21 * length list.now < most_line }
    ensures { Put out.old at out.new result (word.now ++ numbers list.now ++ newline) most_line }
{
    let end = put_words(out, at, word, list);
    put_byte(out, end, b'\n')
}

fn put_state(out: &mut [u8], at: usize, state: State) -> usize
    requires { at + 30 ≤ length out.old }
    ensures { Put out.old at out.new result (state_text state) 30 }
{
    match state {
        State::Used => put_words(out, at, b" used", &[]),
        State::Free => put_words(out, at, b" free", &[]),
        State::Refused(cause) => put_words(out, at, b" refused", &[u64::from(cause.number())]),
    }
}

fn put_row(out: &mut [u8], at: usize, number: RecordNumber, place: usize, state: State) -> usize
    requires { at + most_line ≤ length out.old }
    ensures { Put out.old at out.new result
        (words "row" (number.0 ∷ place ∷ []) ++ state_text state ++ newline) most_line }
{
    let end = put_words(out, at, b"row", &[number.0, place as u64]);
    let stated = put_state(out, end, state);
    put_byte(out, stated, b'\n')
}

fn put_header(out: &mut [u8], at: usize, h: &RecordHeader) -> usize
    requires { at + most_line ≤ length out.old }
    ensures { Put out.old at out.new result (header_text h.now ++ newline) most_line }
{
    let sequence = put_words(out, at, b"header sequence", &[u64::from(h.sequence)]);
    let links = put_words(out, sequence, b" links", &[u64::from(h.links)]);
    let first = put_words(out, links, b" first", &[u64::from(h.first_attribute)]);
    let flags = put_words(out, first, b" flags", &[u64::from(h.flags)]);
    let used = put_words(out, flags, b" used", &[u64::from(h.used)]);
    let allocated = put_words(out, used, b" allocated", &[u64::from(h.allocated)]);
    put_byte(out, allocated, b'\n')
}

/// Puts the text of a line behind a buffer's first bytes, of which there are `at`; answers where it ends.
pub fn put_line(out: &mut [u8], at: usize, line: &Line) -> usize
    requires { at + most_line ≤ length out.old }
    ensures { Put out.old at out.new result (line_text line.now) most_line }
{
    match line {
        Line::Listed(listed) => lines::put_line(out, at, listed),
        Line::Row {
            number,
            place,
            state,
        } => put_row(out, at, *number, *place, *state),
        Line::Rows { count } => put_whole(out, at, b"end rows", &[*count as u64]),
        Line::Header(h) => put_header(out, at, h),
        Line::End => put_whole(out, at, b"end", &[]),
        Line::Stopped(cause) => put_whole(out, at, b"stopped", &[u64::from(cause.number())]),
        Line::Refused(cause) => {
            put_whole(out, at, b"record refused", &[u64::from(cause.number())])
        }
    }
}
