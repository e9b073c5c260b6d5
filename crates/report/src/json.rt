//! A line as one object of JSON, put at a place of a lent buffer (RULES 18.11).
ghost use Rattle.std.specs.Prelude.{◌+◌, ◌≤◌, ◌++◌, length};
ghost use Rattle.std.specs.Fmt.{decimal};
ghost use Rattle.text.specs.Put.{Put};
ghost use Rattle.fields.specs.Told.{number_of};
ghost use Rattle.lines.specs.declared.line.Contents.TheVariants as contents;
ghost use Rattle.report.specs.Room.{most_json};
ghost use Rattle.report.specs.Json.{opened, field, closed, name_json, contents_json, place_json};
ghost use Rattle.report.specs.Json.{attribute_json, part_json, run_json};
ghost use Rattle.report.specs.Json.{listed_json, state_json, header_json, json_text};

use crate::{Line, State};
use fields::{Cause, RecordNumber};
use lines::{AttributeLine, Contents, Name};
use parts::Part;
use record::{RecordHeader, Span};
use runs::Run;
use text::put_words;

// Bytes that hold no number.
fn put_fixed(out: &mut [u8], at: usize, fixed: &[u8]) -> usize
    requires { at + length fixed.now ≤ length out.old }
    ensures { Put out.old at out.new result fixed.now (length fixed.now) }
{
    put_words(out, at, fixed, &[])
}

fn put_number(out: &mut [u8], at: usize, n: u64) -> usize
    requires { at + 20 ≤ length out.old }
    ensures { Put out.old at out.new result (decimal n) 20 }
{
    let mut digits = itoa::Buffer::new();
    put_fixed(out, at, digits.format(n).as_bytes())
}

// What stands before a number, and the number.
fn put_field(out: &mut [u8], at: usize, before: &[u8], n: u64) -> usize
    requires { at + (length before.now + 20) ≤ length out.old }
    ensures { Put out.old at out.new result (before.now ++ decimal n) (length before.now + 20) }
{
    let end = put_fixed(out, at, before);
    put_number(out, end, n)
}

fn put_two(out: &mut [u8], at: usize, before: &[u8], n: u64, between: &[u8], m: u64) -> usize
    requires { at + (length before.now + 20 + (length between.now + 20)) ≤ length out.old }
    ensures { Put out.old at out.new result (before.now ++ decimal n ++ (between.now ++ decimal m))
        (length before.now + 20 + (length between.now + 20)) }
{
    let end = put_field(out, at, before, n);
    put_field(out, end, between, m)
}

// An object with one number, and one with two.
fn put_one_whole(out: &mut [u8], at: usize, before: &[u8], n: u64) -> usize
    requires room { at + most_json ≤ length out.old }
    requires short { length before.now ≤ 60 }
    ensures { Put out.old at out.new result (before.now ++ decimal n ++ closed) most_json }
{
    let end = put_field(out, at, before, n);
    put_fixed(out, end, b"}\n")
}

fn put_two_whole(out: &mut [u8], at: usize, before: &[u8], n: u64, between: &[u8], m: u64) -> usize
    requires room { at + most_json ≤ length out.old }
    requires short { length before.now ≤ 60 }
    requires short_between { length between.now ≤ 60 }
    ensures { Put out.old at out.new result (before.now ++ decimal n ++ (between.now ++ decimal m) ++ closed)
        most_json }
{
    let end = put_two(out, at, before, n, between, m);
    put_fixed(out, end, b"}\n")
}

fn put_name(out: &mut [u8], at: usize, name: Name) -> usize
    requires { at + 80 ≤ length out.old }
    ensures { Put out.old at out.new result (name_json name) 80 }
{
    match name {
        Name::At(span) => put_two(
            out,
            at,
            b",\"name_offset\":",
            span.from as u64,
            b",\"name_bytes\":",
            span.bytes as u64,
        ),
        Name::Refused(cause) => put_field(
            out,
            at,
            b",\"name_refused\":",
            u64::from(cause.number()),
        ),
    }
}

fn put_runs(out: &mut [u8], at: usize, runs: Span, size: u64) -> usize
    requires { at + 140 ≤ length out.old }
    ensures { Put out.old at out.new result (contents_json (contents.Runs runs size)) 140 }
{
    let end = put_two(
        out,
        at,
        b",\"value\":\"runs\",\"value_offset\":",
        runs.from as u64,
        b",\"value_bytes\":",
        runs.bytes as u64,
    );
    put_field(out, end, b",\"value_size\":", size)
}

fn put_contents(out: &mut [u8], at: usize, contents: Contents) -> usize
    requires { at + 140 ≤ length out.old }
    ensures { Put out.old at out.new result (contents_json contents) 140 }
{
    match contents {
        Contents::Resident(span) => put_two(
            out,
            at,
            b",\"value\":\"resident\",\"value_offset\":",
            span.from as u64,
            b",\"value_bytes\":",
            span.bytes as u64,
        ),
        Contents::Runs { runs, size } => put_runs(out, at, runs, size),
        Contents::Refused(cause) => put_field(
            out,
            at,
            b",\"value\":\"refused\",\"value_refused\":",
            u64::from(cause.number()),
        ),
        Contents::Parts { count, size } => put_two(
            out,
            at,
            b",\"value\":\"parts\",\"value_parts\":",
            count as u64,
            b",\"value_size\":",
            size,
        ),
        Contents::PartsRefused { count, cause } => put_two(
            out,
            at,
            b",\"value\":\"parts\",\"value_parts\":",
            count as u64,
            b",\"value_refused\":",
            u64::from(cause.number()),
        ),
    }
}

fn put_place(out: &mut [u8], at: usize, a: &AttributeLine) -> usize
    requires { at + 200 ≤ length out.old }
    ensures { Put out.old at out.new result (place_json a.now) 200 }
{
    let file = put_field(out, at, b"{\"line\":\"attr\",\"record\":", a.file.0);
    let offset = put_field(out, file, b",\"offset\":", a.offset as u64);
    let ty = put_field(out, offset, b",\"type\":", u64::from(a.ty));
    let length = put_field(out, ty, b",\"length\":", a.length as u64);
    put_field(out, length, b",\"instance\":", u64::from(a.instance))
}

fn put_attribute(out: &mut [u8], at: usize, a: &AttributeLine) -> usize
    requires { at + most_json ≤ length out.old }
    ensures { Put out.old at out.new result (attribute_json a.now) most_json }
{
    let place = put_place(out, at, a);
    let name = put_name(out, place, a.name);
    let contents = put_contents(out, name, a.contents);
    put_fixed(out, contents, b"}\n")
}

fn put_part(out: &mut [u8], at: usize, part: &Part) -> usize
    requires { at + most_json ≤ length out.old }
    ensures { Put out.old at out.new result (part_json part.now) most_json }
{
    let file = put_field(out, at, b"{\"line\":\"part\",\"record\":", part.file.0);
    let offset = put_field(out, file, b",\"offset\":", part.offset as u64);
    let lowest = put_field(out, offset, b",\"vcn\":", part.lowest.0);
    let from = put_field(out, lowest, b",\"runs_offset\":", part.runs.from as u64);
    let bytes = put_field(out, from, b",\"runs_bytes\":", part.runs.bytes as u64);
    put_fixed(out, bytes, b"}\n")
}

fn put_run(out: &mut [u8], at: usize, run: Run) -> usize
    requires { at + most_json ≤ length out.old }
    ensures { Put out.old at out.new result (run_json run) most_json }
{
    match run {
        Run::Clusters { start, length } => put_two_whole(
            out,
            at,
            b"{\"line\":\"run\",\"start\":",
            start.0,
            b",\"length\":",
            length,
        ),
        Run::Hole { length } => {
            put_one_whole(out, at, b"{\"line\":\"hole\",\"length\":", length)
        }
    }
}

fn put_refused(out: &mut [u8], at: usize, cause: Cause) -> usize
    requires { at + most_json ≤ length out.old }
    ensures { Put out.old at out.new result
        (opened "table refused" ++ field "refusal" (number_of cause) ++ closed) most_json }
{
    put_one_whole(
        out,
        at,
        b"{\"line\":\"table refused\",\"refusal\":",
        u64::from(cause.number()),
    )
}

fn put_listed(out: &mut [u8], at: usize, line: &lines::Line) -> usize
    requires { at + most_json ≤ length out.old }
    ensures { Put out.old at out.new result (listed_json line.now) most_json }
{
    match line {
        lines::Line::Attribute(a) => put_attribute(out, at, a),
        lines::Line::Part(part) => put_part(out, at, part),
        lines::Line::Run(run) => put_run(out, at, *run),
        lines::Line::RunsRefused(cause) => put_one_whole(
            out,
            at,
            b"{\"line\":\"run refused\",\"refusal\":",
            u64::from(cause.number()),
        ),
        lines::Line::Record { number, size } => put_two_whole(
            out,
            at,
            b"{\"line\":\"record\",\"number\":",
            number.0,
            b",\"size\":",
            *size as u64,
        ),
        lines::Line::End { reads } => {
            put_one_whole(out, at, b"{\"line\":\"end\",\"reads\":", *reads)
        }
        lines::Line::Stopped { cause, reads } => put_two_whole(
            out,
            at,
            b"{\"line\":\"stopped\",\"refusal\":",
            u64::from(cause.number()),
            b",\"reads\":",
            *reads,
        ),
        lines::Line::TableRefused => put_refused(out, at, Cause::BadTable),
        lines::Line::NoRecord => put_refused(out, at, Cause::NoRecord),
    }
}

fn put_state(out: &mut [u8], at: usize, state: State) -> usize
    requires { at + 80 ≤ length out.old }
    ensures { Put out.old at out.new result (state_json state) 80 }
{
    match state {
        State::Used => put_fixed(out, at, b",\"state\":\"used\""),
        State::Free => put_fixed(out, at, b",\"state\":\"free\""),
        State::Refused(cause) => put_field(
            out,
            at,
            b",\"state\":\"refused\",\"refusal\":",
            u64::from(cause.number()),
        ),
    }
}

fn put_row(out: &mut [u8], at: usize, number: RecordNumber, place: usize, state: State) -> usize
    requires { at + most_json ≤ length out.old }
    ensures { Put out.old at out.new result (opened "row" ++ field "number" number.0 ++ field "place" place
        ++ state_json state ++ closed) most_json }
{
    let end = put_two(
        out,
        at,
        b"{\"line\":\"row\",\"number\":",
        number.0,
        b",\"place\":",
        place as u64,
    );
    let stated = put_state(out, end, state);
    put_fixed(out, stated, b"}\n")
}

fn put_header(out: &mut [u8], at: usize, h: &RecordHeader) -> usize
    requires { at + most_json ≤ length out.old }
    ensures { Put out.old at out.new result (header_json h.now) most_json }
{
    let sequence = put_field(
        out,
        at,
        b"{\"line\":\"header\",\"sequence\":",
        u64::from(h.sequence),
    );
    let links = put_field(out, sequence, b",\"links\":", u64::from(h.links));
    let first = put_field(out, links, b",\"first\":", u64::from(h.first_attribute));
    let flags = put_field(out, first, b",\"flags\":", u64::from(h.flags));
    let used = put_field(out, flags, b",\"used\":", u64::from(h.used));
    let allocated = put_field(out, used, b",\"allocated\":", u64::from(h.allocated));
    put_fixed(out, allocated, b"}\n")
}

// The end of a walk that is told no count.
fn put_end(out: &mut [u8], at: usize) -> usize
    requires { at + most_json ≤ length out.old }
    ensures { Put out.old at out.new result (opened "end" ++ closed) most_json }
{
    put_fixed(out, at, b"{\"line\":\"end\"}\n")
}

/// Puts a line as an object behind a buffer's first bytes, of which there are `at`; answers where it ends.
pub fn put_json(out: &mut [u8], at: usize, line: &Line) -> usize
    requires { at + most_json ≤ length out.old }
    ensures { Put out.old at out.new result (json_text line.now) most_json }
{
    match line {
        Line::Listed(listed) => put_listed(out, at, listed),
        Line::Row {
            number,
            place,
            state,
        } => put_row(out, at, *number, *place, *state),
        Line::Rows { count } => {
            put_one_whole(out, at, b"{\"line\":\"end\",\"rows\":", *count as u64)
        }
        Line::Header(h) => put_header(out, at, h),
        Line::End => put_end(out, at),
        Line::Stopped(cause) => put_one_whole(
            out,
            at,
            b"{\"line\":\"stopped\",\"refusal\":",
            u64::from(cause.number()),
        ),
        Line::Refused(cause) => put_one_whole(
            out,
            at,
            b"{\"line\":\"record refused\",\"refusal\":",
            u64::from(cause.number()),
        ),
    }
}
