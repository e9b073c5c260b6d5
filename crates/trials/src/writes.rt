//! Listings and reports that are written in pieces, and those whose writing fails at each of its writes in turn.
use crate::fakes::{Input, Output, Trouble};
use crate::kept::{
    LISTING, LISTING_JSON, LONG_END, LONG_FRONT, NUMBER, RECORD_JSON, RECORDS, ROWS_JSON, TABLE,
    long_table,
};
use command::{Asked, Reason, report_input};
use fields::RecordNumber;
use lines::{Ending, write_listing, write_record_of, write_table};
use report::{Form, write_record, write_rows};
use std::alloc::Global;
use std::io;
use std::io::ErrorKind;
use std::process::Abort;
use std::test::Fail;

const KINDS: [ErrorKind; 3] = [
    ErrorKind::BrokenPipe,
    ErrorKind::WriteZero,
    ErrorKind::Other,
];

// How many bytes a write takes at most, where each write in turn fails.
const MOST_AT_ONCE: [usize; 3] = [5, 50, usize::MAX];

#[derive(Clone, Copy, Debug)]
enum Call {
    Listing,
    Table,
    Numbered,
    Command,
    Json,
    Rows,
    Record,
}

// A call, the bytes that it is made on, and what it has to write.
#[derive(Clone, Copy)]
struct Request<'a> {
    call: Call,
    bytes: &'a [u8],
    expected: &'a [u8],
}

// A call on the table.
fn of_table(call: Call, expected: &'static [u8]) -> Request<'static> {
    Request {
        call,
        bytes: &TABLE,
        expected,
    }
}

fn requests() -> [Request<'static>; 7] {
    [
        of_table(Call::Listing, LISTING),
        of_table(Call::Table, LISTING),
        of_table(Call::Numbered, LISTING),
        of_table(Call::Command, LISTING),
        of_table(Call::Json, LISTING_JSON),
        of_table(Call::Rows, ROWS_JSON),
        Request {
            call: Call::Record,
            bytes: &TABLE[RECORDS..],
            expected: RECORD_JSON,
        },
    ]
}

impl Request<'_> {
    // Writes to the end, or says by an error that it did not.
    fn write(&self, alloc: Global, out: &mut Output) -> io::Result<Ending> {
        let number = RecordNumber(NUMBER);
        match self.call {
            Call::Listing => write_listing(self.bytes, out),
            Call::Table => write_table(self.bytes, out),
            Call::Numbered => write_record_of(self.bytes, number, out),
            Call::Json => report::write_table(self.bytes, Form::Json, out),
            Call::Rows => write_rows(self.bytes, Form::Json, out),
            Call::Record => write_record(self.bytes, number, Form::Json, out),
            Call::Command => {
                let mut input = Input {
                    rest: self.bytes,
                    piece: usize::MAX,
                    trouble: Trouble::none(false),
                };
                match report_input(alloc, &mut input, Asked::Listing(None), Form::Text, out)? {
                    None => Ok(Ending::Whole),
                    Some(Reason::OutOfMemory) => Err(io::Error::from(ErrorKind::OutOfMemory)),
                    Some(_) => Err(io::Error::from(ErrorKind::InvalidData)),
                }
            }
        }
    }

    // Writes with no trouble but interruptions, and gives how many writes that took.
    fn writes<R: Abort + AllocGlobal>(
        &self,
        rt: &R,
        most: usize,
        interrupts: bool,
    ) -> Result<usize, Fail> {
        let mut output = Output::new(self.expected, most, Trouble::none(interrupts));
        let ending = self.write(rt.alloc(), &mut output)?;
        assert_eq!(rt; ending, Ending::Whole);
        let call = self.call;
        assert!(rt; output.is_whole(), "{call:?} by {most}");
        Ok(output.trouble.calls)
    }

    // Fails: what was taken is a front, nothing is written behind it, and the next call writes all.
    fn fails<R: Abort + AllocGlobal>(
        &self,
        rt: &R,
        most: usize,
        trouble: Trouble,
    ) -> Result<(), Fail> {
        let call = self.call;
        let at = trouble.fails_at;
        let mut output = Output::new(self.expected, most, trouble);
        match self.write(rt.alloc(), &mut output) {
            Ok(_) => panic!(rt; "{call:?} by {most}: write {at} fails, and it says nothing"),
            Err(error) if error.kind() == ErrorKind::OutOfMemory => return Err(Fail::from(error)),
            Err(error) => assert!(rt; error.kind() == trouble.kind, "{call:?} by {most}"),
        }
        assert!(rt; output.is_part(), "{call:?} by {most}: write {at}");
        assert_eq!(rt; output.trouble.calls, at);
        output.begin();
        self.write(rt.alloc(), &mut output)?;
        assert!(rt; output.is_whole(), "{call:?} by {most}: behind write {at}");
        Ok(())
    }

    fn fails_at_each<R: Abort + AllocGlobal>(&self, rt: &R, most: usize) -> Result<(), Fail> {
        for interrupts in [false, true] {
            for fails_at in 1..=self.writes(rt, most, interrupts)? {
                let trouble = Trouble {
                    calls: 0,
                    fails_at,
                    kind: KINDS[fails_at % KINDS.len()],
                    interrupts,
                };
                self.fails(rt, most, trouble)?;
            }
        }
        Ok(())
    }
}

#[test]
fn a_write_that_fails_is_told_and_leaves_a_front(rt: HostRuntime) -> Result<(), Fail> {
    for one in requests() {
        for less in 0..one.expected.len() {
            one.writes(&rt, less + 1, false)?;
        }
        for most in MOST_AT_ONCE {
            one.fails_at_each(&rt, most)?;
        }
    }
    Ok(())
}

// The expected text comes from the call that fills a lent buffer; its two ends are written by hand.
#[test]
fn a_second_page_fails_alike(rt: HostRuntime) -> Result<(), Fail> {
    let table = long_table();
    let mut room = [0u8; 16_384];
    let listed = lines::list(&table, &mut room);
    let expected = room.get(..listed.end).ok_or("no listing")?;
    assert!(rt; expected.starts_with(LONG_FRONT) && expected.ends_with(LONG_END));
    for call in [Call::Table, Call::Numbered, Call::Command] {
        let one = Request {
            call,
            bytes: &table,
            expected,
        };
        for most in [1000, 8000, usize::MAX] {
            one.fails_at_each(&rt, most)?;
        }
        assert!(rt; one.writes(&rt, usize::MAX, false)? > 1);
    }
    Ok(())
}
