//! A table that is read in pieces, and one whose reading fails at each of its reads in turn.
use crate::fakes::{Input, Output, Trouble};
use crate::kept::{LISTING, TABLE};
use command::{Asked, Reason, read_input, report_input};
use report::Form;
use std::io::ErrorKind;
use std::process::Abort;
use std::test::Fail;

const LISTED: Asked = Asked::Listing(None);

// How many bytes a read gives at most.
const PIECES: [usize; 4] = [1, 7, 24, 1000];

// The fewest reads of a table: its header, its rows, its records.
const LEAST_READS: usize = 3;

const KINDS: [ErrorKind; 3] = [
    ErrorKind::ConnectionReset,
    ErrorKind::OutOfMemory,
    ErrorKind::UnexpectedEof,
];

// Lists the table with no trouble but interruptions, and gives how many reads that took.
fn reads_of<R: Abort + AllocGlobal>(rt: &R, piece: usize, interrupts: bool) -> Result<usize, Fail> {
    let from = Input {
        rest: &TABLE,
        piece,
        trouble: Trouble::none(interrupts),
    };
    let mut input = from;
    match read_input(rt.alloc(), &mut input, LISTED) {
        Ok(table) => assert!(rt; table.as_slice() == TABLE.as_slice()),
        Err(reason) => return Err(Fail::from(reason)),
    }
    let reads = input.trouble.calls;
    let mut again = from;
    let mut output = Output::new(LISTING, usize::MAX, Trouble::none(false));
    match report_input(rt.alloc(), &mut again, LISTED, Form::Text, &mut output)? {
        None => assert!(rt; output.is_whole()),
        Some(reason) => return Err(Fail::from(reason)),
    }
    assert_eq!(rt; again.trouble.calls, reads);
    Ok(reads)
}

// Lists a table whose reading fails: the reason is the reader's, and neither is more read nor anything written.
fn fails<R: Abort + AllocGlobal>(rt: &R, from: Input) -> Result<(), Fail> {
    let trouble = from.trouble;
    let mut input = from;
    let mut output = Output::new(LISTING, usize::MAX, Trouble::none(false));
    let listed = report_input(rt.alloc(), &mut input, LISTED, Form::Text, &mut output)?;
    assert_eq!(rt; output.taken, 0);
    match listed {
        Some(Reason::Unreadable(error)) => assert!(rt; error.kind() == trouble.kind),
        Some(Reason::OutOfMemory) => return Err(Fail::from(Reason::OutOfMemory)),
        _ => panic!(rt;
            "read {} fails, and nothing is said of it",
            trouble.fails_at
        ),
    }
    assert_eq!(rt; input.trouble.calls, trouble.fails_at);
    Ok(())
}

#[test]
fn a_read_that_fails_is_told_and_nothing_is_written(rt: HostRuntime) -> Result<(), Fail> {
    for piece in PIECES {
        for interrupts in [false, true] {
            let reads = reads_of(&rt, piece, interrupts)?;
            assert!(rt; reads >= LEAST_READS, "{reads} reads of {piece}");
            for fails_at in 1..=reads {
                let trouble = Trouble {
                    calls: 0,
                    fails_at,
                    kind: KINDS[fails_at % KINDS.len()],
                    interrupts,
                };
                fails(
                    &rt,
                    Input {
                        rest: &TABLE,
                        piece,
                        trouble,
                    },
                )?;
            }
        }
    }
    Ok(())
}
