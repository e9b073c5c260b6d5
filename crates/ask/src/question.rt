//! Questions, as they come on standard input: a byte for what is asked, a byte for how many numbers come with it,
//! each number as a byte for its tag and eight for its value, little-endian; then the bytes of the record, those of
//! the table, those that a key's name begins with, and the numbers of an extract's records, eight bytes each, as many
//! as four of the numbers say; the name's others are 0. A number that does not come is 0. So a call that asks for more
//! takes a new tag, behind the others, and no other question changes.
use fields::RecordNumber;
use fields::bytes::{u16_at, u32_at, u64_at};
use items::{Key, Rest, State};
use list::MOST_NAME;
use std::alloc::{AllocError, Global};
use std::io;
use std::io::{ErrorKind, Read};

// What is asked, and how many numbers come.
const HEAD: usize = 2;

// Where each number is kept, eight bytes for each in the order of the tags: that of tag 0 first.
const NUMBER: usize = 0;

const PLACE: usize = 8;

const WANTED: usize = 16;

const LIST: usize = 24;

const LIST_FROM: usize = 32;

const LIST_TO: usize = 40;

const KEY: usize = 48;

const TYPE: usize = 56;

const INSTANCE: usize = 64;

const MOST: usize = 72;

const RECORD_BYTES: usize = 80;

const TABLE_BYTES: usize = 88;

const BUFFER: usize = 96;

const LAST: usize = 104;

const SUM: usize = 112;

const RUN_BYTES: usize = 120;

const UNITS: usize = 128;

const NAME_BYTES: usize = 136;

const SIZE: usize = 144;

const LISTED: usize = 152;

const HAS_BASE: usize = 160;

const BASE: usize = 168;

const NUMBERS: usize = 176;

/// How many bytes the record and the table may have together: as many as an extract of one record too many and a
/// buffer for the longest table of its size.
const ROOM: usize = 4_300_000;

/// How many numbers may be listed: one for each of the smallest records that there is room for, and a few more.
const MOST_LISTED: usize = 8_400;

/// A question, for every call that there is: each reads what it needs. A state has the place as its raw place, the list
/// and the key; `ty` stands beside a key, since other calls ask for it too, and `instance` is theirs alone. `most` is
/// how many calls a walk makes, the room for parts, or how many bytes of a key's name are sought; `buffer` the room for
/// a listing's text. `last` and `sum` go from one run to the next, and `run_bytes` is how many bytes of a record hold
/// runs. The record is, for an entry, the rest of a list, and for one run the run bytes; for an extract it is the
/// extract, of records of `size` bytes, and the table is what its buffer holds; `listed` are the numbers of its records
/// where these are chosen, and `base` is the record that its table is to have for its base record. Of two tables that
/// are merged the record is the first, and the table is the second and behind it what their buffer holds, `buffer`
/// bytes. The kind is the byte that came: `main` has the kinds.
#[derive(Clone, Copy)]
pub struct Question<'a> {
    pub kind: u8,
    pub number: RecordNumber,
    pub place: usize,
    pub wanted: RecordNumber,
    pub list: Option<Rest>,
    pub key: Option<Key>,
    pub ty: u32,
    pub instance: u16,
    pub most: u16,
    pub buffer: usize,
    pub last: u64,
    pub sum: u64,
    pub run_bytes: usize,
    pub size: usize,
    pub base: Option<RecordNumber>,
    pub listed: &'a [RecordNumber],
    pub record: &'a [u8],
    pub table: &'a [u8],
}

impl<'a> Question<'a> {
    fn of(
        kind: u8,
        numbers: &[u8; NUMBERS],
        name: [u8; MOST_NAME],
        listed: &'a [RecordNumber],
        record: &'a [u8],
        table: &'a [u8],
    ) -> Question<'a> {
        let ty = u32_at(numbers, TYPE);
        let rest = Rest {
            from: u64_at(numbers, LIST_FROM) as usize,
            to: u64_at(numbers, LIST_TO) as usize,
        };
        let key = Key {
            ty,
            units: numbers[UNITS],
            name,
        };
        let base = RecordNumber(u64_at(numbers, BASE));
        Question {
            kind,
            number: RecordNumber(u64_at(numbers, NUMBER)),
            place: u64_at(numbers, PLACE) as usize,
            wanted: RecordNumber(u64_at(numbers, WANTED)),
            list: if numbers[LIST] != 0 { Some(rest) } else { None },
            key: if numbers[KEY] != 0 { Some(key) } else { None },
            ty,
            instance: u16_at(numbers, INSTANCE),
            most: u16_at(numbers, MOST),
            buffer: u64_at(numbers, BUFFER) as usize,
            last: u64_at(numbers, LAST),
            sum: u64_at(numbers, SUM),
            run_bytes: u64_at(numbers, RUN_BYTES) as usize,
            size: u64_at(numbers, SIZE) as usize,
            base: if numbers[HAS_BASE] != 0 {
                Some(base)
            } else {
                None
            },
            listed,
            record,
            table,
        }
    }

    /// The state that a walk goes on from.
    pub fn state(&self) -> State {
        State {
            raw: self.place,
            list: self.list,
            key: self.key,
        }
    }
}

/// Room for the bytes of a question.
pub fn room(alloc: Global) -> Result<Vec<u8>, AllocError> {
    vec![in alloc; 0; ROOM]
}

/// Room for the numbers that a question lists.
pub fn listed_room(alloc: Global) -> Result<Vec<RecordNumber>, AllocError> {
    vec![in alloc; RecordNumber(0); MOST_LISTED]
}

// So many numbers, each at its place. A tag that there is not is an error.
fn numbers<R: Read>(input: &mut R, count: u8) -> io::Result<[u8; NUMBERS]> {
    let mut given = [0u8; NUMBERS];
    for _ in 0..count {
        let mut tag = [0u8; 1];
        input.read_exact(&mut tag)?;
        let at = 8 * usize::from(tag[0]);
        let Some(number) = given.get_mut(at..at + 8) else {
            return Err(io::Error::from(ErrorKind::InvalidData));
        };
        input.read_exact(number)?;
    }
    Ok(given)
}

// A name that begins with as many bytes as come for it.
fn name<R: Read>(input: &mut R, count: usize) -> io::Result<[u8; MOST_NAME]> {
    let mut whole = [0u8; MOST_NAME];
    let Some(given) = whole.get_mut(..count) else {
        return Err(io::Error::from(ErrorKind::InvalidData));
    };
    input.read_exact(given)?;
    Ok(whole)
}

// So many listed numbers, put at the front of their room.
fn listed<'a, R: Read>(
    input: &mut R,
    count: usize,
    room: &'a mut [RecordNumber],
) -> io::Result<&'a [RecordNumber]> {
    let Some(numbers) = room.get_mut(..count) else {
        return Err(io::Error::from(ErrorKind::InvalidData));
    };
    for number in numbers.iter_mut() {
        let mut bytes = [0u8; 8];
        input.read_exact(&mut bytes)?;
        *number = RecordNumber(u64_at(&bytes, 0));
    }
    Ok(numbers)
}

/// The next question, its bytes put at the front of the buffer, and its listed numbers at that of theirs. An input that
/// ends here is an error, and so is a question that is cut, has no room, or has more bytes for a name than that has.
pub fn read<'a, R: Read>(
    input: &mut R,
    space: &'a mut [u8],
    room: &'a mut [RecordNumber],
) -> io::Result<Question<'a>> {
    let mut head = [0u8; HEAD];
    input.read_exact(&mut head)?;
    let given = numbers(input, head[1])?;
    let record = u32_at(&given, RECORD_BYTES) as usize;
    let table = u32_at(&given, TABLE_BYTES) as usize;
    let Some(bytes) = space.get_mut(..record + table) else {
        return Err(io::Error::from(ErrorKind::InvalidData));
    };
    input.read_exact(bytes)?;
    let name = name(input, u64_at(&given, NAME_BYTES) as usize)?;
    let listed = listed(input, u64_at(&given, LISTED) as usize, room)?;
    let (record, table) = bytes.split_at(record);
    Ok(Question::of(head[0], &given, name, listed, record, table))
}
