//! A raw $MFT of which records are listed, each from its own bytes and those of the records that its lists refer to.
ghost use Rattle.std.specs.Prelude.{◌≡◌, ◌⊎◌, ◌≤◌, ◌*◌, ℕ, List, Ok, Err, true, length, vec_len, IfSome, IfOk, IfErr};
ghost use Rattle.extract.specs.Size.{good_size};
ghost use Rattle.command.specs.Extraction.{size_of};
ghost use Rattle.command.specs.Read.{IsUnread};
ghost use Rattle.mft.specs.Room.{Roomy, most_records};

use crate::gathered::{MOST_RECORDS, RawRecord};
use crate::listing::{Heard, list_base, seek_name};
use crate::ready::{Ready, complete, prepare};
use crate::sole::{Sole, sift};
use crate::{Layout, Manner, Records, Told, Turn};
use command::{Extraction, Reason, read_front};
use extract::laws::{extracts_are_held, fixups_byte_by_byte};
use fields::RecordNumber;
use references::laws::sorted_numbers_rise;
use std::alloc::Global;
use std::io;
use std::io::{Read, Seek, SeekFrom, Write};
use table::{HEADER_SIZE, ROW_SIZE};

/// A raw $MFT that can be gone to a place of, and the room that its records take while they are listed.
#[derive(Drop)]
pub struct Mft<R> {
    input: R,
    layout: Layout,
    // one raw record
    own: Vec<u8>,
    // as many as are listed together
    raw: Vec<u8>,
    // the table of so many
    table: Vec<u8>,
    ghost good: { good_size layout.size ≡ true },
    ghost one: { vec_len own ≡ layout.size },
    ghost most: { layout.size * most_records ≤ vec_len raw },
    ghost roomy: { Roomy layout.size (vec_len table) },
}

// A buffer of zeros.
fn room(alloc: Global, length: usize) -> Result<Vec<u8>, Reason>
    ensures ok { IfOk result (λ room. vec_len room ≡ length) }
    ensures err { IfErr result IsUnread }
{
    match vec![in alloc; 0; length] {
        Ok(room) => Ok(room),
        Err(_) => Err(Reason::OutOfMemory),
    }
}

// How long an input is that can be gone to places of.
fn length<R: Seek>(input: &mut R) -> Result<u64, Reason>
    ensures ok { IfOk result (λ n. IfSome (R.stream_position input.old) (λ at.
        IfSome (R.stream_bytes input.old) (λ bytes. n ≡ length bytes))) }
    ensures err { IfErr result IsUnread }
{
    input.seek(SeekFrom::End(0)).map_err(Reason::Unreadable)
}

// The record size: as it is asked for, or else as the record at the input's front tells it.
fn size<R: Read + Seek>(alloc: Global, input: &mut R, asked: Extraction) -> Result<u16, Reason>
    ensures ok { IfOk result (λ n. (front : List ℕ) × (size_of asked.size front ≡ Ok n)) }
    ensures good { IfOk result (λ n. good_size n ≡ true) }
    ensures err { IfErr result (λ r. IsUnread r ⊎ ((front : List ℕ) × (size_of asked.size front ≡ Err r))) }
{
    if asked.size.is_some() {
        return asked.size(&[]);
    }
    input.rewind().map_err(Reason::Unreadable)?;
    let front = read_front(alloc, input)?;
    asked.size(&front)
}

impl<R: Read + Seek + Drop> Mft<R> {
    ghost use Rattle.std.specs.Prelude.{◌≡◌, ◌⊎◌, ◌≤◌, ◌<◌, ℕ, List, [], Ok, Err, length, take, vec_len};
    ghost use Rattle.std.specs.Prelude.{IfSome, IfOk, IfErr, OnErr, option_copied};
    ghost use Rattle.command.specs.Extraction.{size_of};
    ghost use Rattle.command.specs.Read.{IsUnread};
    ghost use Rattle.mft.specs.Ready.{IsReadyOf, IsReady};
    ghost use Rattle.mft.specs.Gather.{Fetched};
    ghost use Rattle.table.specs.Check.{number_end};
    ghost use Rattle.mft.specs.Sole.{IsSole};
    ghost use Rattle.mft.specs.Turn.{TurnsBase, FailsFound, Turns, FailsNext};
    ghost use Rattle.mft.specs.Told.{IsRead, IsUntold, ListsBy, FailsBy, IsTold, IsFailed};

    /// An input, as what is asked of an extract says it: its record size and the number of its first record.
    pub fn of(alloc: Global, mut input: R, asked: Extraction) -> Result<Mft<R>, Reason>
        ensures size { IfOk result (λ m. (front : List ℕ) × (size_of asked.size front ≡ Ok m.layout.size)) }
        ensures first { IfOk result (λ m. m.layout.first ≡ asked.first) }
        ensures length { IfOk result (λ m. IfSome (R.stream_position input) (λ at.
            IfSome (R.stream_bytes input) (λ bytes. m.layout.length ≡ length bytes))) }
        ensures err { IfErr result (λ r. IsUnread r ⊎ ((front : List ℕ) × (size_of asked.size front ≡ Err r))) }
    {
        let layout = Layout {
            length: length(&mut input)?,
            size: size(alloc, &mut input, asked)?,
            first: asked.first,
        };
        let size = usize::from(layout.size);
        let own = room(alloc, size)?;
        let raw = room(alloc, MOST_RECORDS * size)?;
        let table = room(alloc, HEADER_SIZE + (ROW_SIZE + size) * MOST_RECORDS)?;
        Ok(Mft {
            input,
            layout,
            own,
            raw,
            table,
        })
    }

    /// The bytes of its records.
    pub fn size(&self) -> u16
        ensures { result ≡ self.now.layout.size }
    {
        self.layout.size
    }

    // Makes ready the table that a record is listed by.
    fn complete(
        &mut self,
        alloc: Global,
        number: RecordNumber,
        sole: &Sole,
    ) -> Result<Ready, Reason>
        requires number { number.0 < number_end }
        requires sole { IsSole self.old.own.items number (vec_len self.old.table) self.old.table.items sole.now }
        ensures ok { IfOk result (IsReady R.stream_position R.remaining self.old.layout number self.old.own.items
            self.new.table.items) }
        ensures err { IfErr result IsUnread }
        ensures layout { self.new.layout ≡ self.old.layout }
        ensures own { self.new.own ≡ self.old.own }
    {
        complete(
            alloc,
            &mut self.input,
            self.layout,
            RawRecord::of(number, &self.own),
            sole,
            &mut self.raw,
            &mut self.table,
        )
    }

    // Lists the record whose table is ready.
    fn list_ready<W: Write>(
        &self,
        alloc: Global,
        number: RecordNumber,
        ready: Ready,
        manner: Manner,
        out: &mut W,
    ) -> io::Result<Told>
        requires { ready.length ≤ length self.now.table.items }
        ensures ok { IfOk result (λ t. (t.number ≡ number) × ((b : List ℕ) (fs : List Fetched)
            → IsReadyOf R.stream_position R.remaining self.now.layout number self.now.own.items self.now.table.items
            ready b fs
            → ListsBy R.stream_position R.remaining self.now.layout number manner (W.contents out.old)
            (W.contents out.new) t b fs)) }
        ensures err { OnErr result ((b : List ℕ) (fs : List Fetched)
            → IsReadyOf R.stream_position R.remaining self.now.layout number self.now.own.items self.now.table.items
            ready b fs
            → FailsBy R.stream_position R.remaining self.now.layout number manner (W.contents out.old)
            (W.contents out.new) b fs) }
    {
        extracts_are_held();
        fixups_byte_by_byte();
        sorted_numbers_rise();
        let table = &self.table[..ready.length];
        let heard = list_base(alloc, table, number, manner, out)?;
        Ok(Told {
            number,
            lost: ready.lost,
            hazards: heard.hazards,
            reason: heard.reason,
        })
    }

    // Reads a record by its number, and makes ready the table that it is listed by.
    fn prepare(&mut self, alloc: Global, number: RecordNumber) -> Result<Ready, Reason>
        ensures read { IfOk result (λ ready. IsRead R.stream_position R.remaining self.old.layout number
            self.new.own.items) }
        ensures ready { IfOk result (IsReady R.stream_position R.remaining self.old.layout number self.new.own.items
            self.new.table.items) }
        ensures err { IfErr result (IsUntold R.stream_position R.remaining self.old.layout number) }
        ensures layout { self.new.layout ≡ self.old.layout }
    {
        prepare(
            alloc,
            &mut self.input,
            self.layout,
            number,
            &mut self.own,
            &mut self.raw,
            &mut self.table,
        )
    }

    /// Lists the record with a number: a line `file N`, then its listing by the records of the $MFT that its lists
    /// refer to (RULES 24.6). Nothing is written where the record is not there, or can't be read.
    pub fn list<W: Write>(
        &mut self,
        alloc: Global,
        number: RecordNumber,
        manner: Manner,
        out: &mut W,
    ) -> io::Result<Told>
        ensures ok { IfOk result (IsTold R.stream_position R.remaining self.old.layout number manner
            (W.contents out.old) (W.contents out.new)) }
        ensures err { OnErr result (IsFailed R.stream_position R.remaining self.old.layout number manner
            (W.contents out.old) (W.contents out.new)) }
        ensures layout { self.new.layout ≡ self.old.layout }
    {
        match self.prepare(alloc, number) {
            Ok(ready) => self.list_ready(alloc, number, ready, manner, out),
            Err(reason) => Ok(Told::skipped(alloc, number, reason)),
        }
    }

    // The same of a base record in use that is at hand, where its file has the name that is wanted, if one is.
    fn list_wanted<W: Write>(
        &mut self,
        alloc: Global,
        number: RecordNumber,
        sole: &Sole,
        wanted: Option<&[u8]>,
        manner: Manner,
        out: &mut W,
    ) -> io::Result<Turn>
        requires number { number.0 < number_end }
        requires sole { IsSole self.old.own.items number (vec_len self.old.table) self.old.table.items sole.now }
        ensures ok { IfOk result (TurnsBase R.stream_position R.remaining self.old.layout manner
            (option_copied wanted.entry) number self.old.own.items (W.contents out.old) (W.contents out.new)) }
        ensures err { OnErr result (FailsFound R.stream_position R.remaining self.old.layout manner
            (option_copied wanted.entry) number self.old.own.items (W.contents out.old) (W.contents out.new)) }
        ensures layout { self.new.layout ≡ self.old.layout }
    {
        extracts_are_held();
        fixups_byte_by_byte();
        sorted_numbers_rise();
        let ready = match self.complete(alloc, number, sole) {
            Ok(ready) => ready,
            Err(reason) => return Ok(Turn::Told(Told::skipped(alloc, number, reason))),
        };
        match seek_name(&self.table[..ready.length], number, wanted) {
            Ok(true) => Ok(Turn::Told(self.list_ready(alloc, number, ready, manner, out)?)),
            Ok(false) => Ok(Turn::Passed),
            Err(reason) => Ok(Turn::Told(Told::unsought(alloc, number, ready.lost, reason))),
        }
    }

    /// Goes on to the next of `records`, which are this $MFT's by a handle of their own, and lists it where it is a
    /// base record in use (RULES 25.2) and its file has the name that is wanted, if one is.
    pub fn list_next<S: Read + Drop, W: Write>(
        &mut self,
        alloc: Global,
        records: &mut Records<S>,
        wanted: Option<&[u8]>,
        manner: Manner,
        out: &mut W,
    ) -> io::Result<Turn>
        ensures ok { IfOk result (Turns R.stream_position R.remaining self.old.layout manner
            (option_copied wanted.entry) records.old.next (S.remaining records.old.input)
            (S.remaining records.new.input) records.new.next (W.contents out.old) (W.contents out.new)) }
        ensures err { OnErr result (FailsNext R.stream_position R.remaining self.old.layout manner
            (option_copied wanted.entry) records.old.next (S.remaining records.old.input)
            (S.remaining records.new.input) records.new.next (W.contents out.old) (W.contents out.new)) }
        ensures layout { self.new.layout ≡ self.old.layout }
    {
        let number = match records.read(&mut self.own) {
            Ok(Some(number)) => number,
            Ok(None) => return Ok(Turn::End),
            Err(reason) => return Ok(Turn::Ended(reason)),
        };
        match sift(&self.own, number, &mut self.table) {
            Ok(Some(sole)) => self.list_wanted(alloc, number, &sole, wanted, manner, out),
            Ok(None) => Ok(Turn::Passed),
            Err(reason) => Ok(Turn::Told(Told::skipped(alloc, number, reason))),
        }
    }
}
