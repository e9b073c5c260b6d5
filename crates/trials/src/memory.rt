//! Calls that allocate: where memory runs out they say so, and the next call answers. Of itself this shows only that
//! they answer; tests/failing_allocations runs it with each allocation failing in turn.
use crate::fakes::{Input, Output, Trouble};
use crate::kept::{LISTING, NUMBER, RECORDS, TABLE};
use command::{Asked, Reason, heading, report_input};
use fields::RecordNumber;
use record::Record;
use report::Form;
use std::test::Fail;
use uses::attributes;

// Each call twice, so that one is the next behind a failure.
const TURNS: usize = 2;

const ATTRIBUTES: usize = 2;

#[test]
fn out_of_memory_is_told(rt: HostRuntime) -> Result<(), Fail> {
    let mut ran_out: usize = 0;
    let within = Record::open(&TABLE[RECORDS..], RecordNumber(NUMBER))?;
    for _ in 0..TURNS {
        let mut input = Input {
            rest: &TABLE,
            piece: 24,
            trouble: Trouble::none(false),
        };
        let mut output = Output::new(LISTING, usize::MAX, Trouble::none(false));
        match report_input(
            rt.alloc(),
            &mut input,
            Asked::Listing(None),
            Form::Text,
            &mut output,
        )? {
            None => assert!(rt; output.is_whole()),
            Some(Reason::OutOfMemory) => {
                assert_eq!(rt; output.taken, 0);
                ran_out = ran_out.saturating_add(1);
            }
            Some(reason) => panic!(rt; "the table is not listed: {reason}"),
        }
        match heading(rt.alloc(), Form::Text, "a b\n") {
            Ok(line) => assert_eq!(rt; line.as_slice(), b"table a b\\n\n".as_slice()),
            Err(_) => ran_out = ran_out.saturating_add(1),
        }
        match attributes(&within, rt.alloc()) {
            Ok(found) => assert_eq!(rt; found.len(), ATTRIBUTES),
            Err(_) => ran_out = ran_out.saturating_add(1),
        }
    }
    // one failing allocation makes one call fail, and none behind it
    assert!(rt; ran_out <= 1);
    if ran_out == 1 {
        return Err(Fail::from(Reason::OutOfMemory));
    }
    Ok(())
}
