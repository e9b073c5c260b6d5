//! What is asked of list entries and tables.
use crate::question::Question;
use crate::tell::Word;
use fields::Refusal;
use fields::bytes::u32_at;
use items::File;
use list::{Entry, Listed};
use std::io;
use std::io::Write;
use table::{Table, TableHeader};

pub fn entry(q: &Question<'_>) -> Result<Option<Entry>, Refusal> {
    list::header(q.record, q.number, q.place)
}

pub fn listed(q: &Question<'_>) -> Listed {
    list::step(q.record, q.number, q.place)
}

/// The base row of a table's numbers whatever they are, since the call doesn't ask that they passed the check.
/// Fewer than 20 bytes have no answer. The five are read here once more: `Table::check` hands out no header
/// that fails its check.
pub fn base_row<W: Write>(out: &mut W, t: &[u8]) -> io::Result<()> {
    if t.len() < 20 {
        return Ok(());
    }
    let header = TableHeader {
        count: u32_at(t, 0),
        size: u32_at(t, 4),
        directory: u32_at(t, 8),
        records: u32_at(t, 12),
        base: u32_at(t, 16),
    };
    match header.base_row() {
        Some(i) => writeln!(out, "row {i}"),
        None => out.write_all(b"none\n"),
    }
}

pub fn check(q: &Question<'_>) -> Result<TableHeader, Refusal> {
    Ok(Table::check(q.table)?.header)
}

/// A record and a table, as every call on a file takes them.
pub fn open<'a>(q: &Question<'a>) -> Result<File<'a>, Refusal> {
    File::of_bytes(q.table, q.record, q.number)
}

pub fn opening(q: &Question<'_>) -> Result<TableHeader, Refusal> {
    Ok(open(q)?.table.header)
}

pub fn lookup<'a>(q: &Question<'_>) -> Result<Word<'a>, Refusal> {
    open(q)?.lookup(q.wanted, q.place)?;
    Ok(Word("found"))
}

pub fn record_bytes<'a>(q: &Question<'a>) -> Result<&'a [u8], Refusal> {
    Ok(open(q)?.lookup(q.wanted, q.place)?.bytes)
}
