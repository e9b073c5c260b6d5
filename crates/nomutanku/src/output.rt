//! Where a table goes: to standard output, or to a file, which has all of it or is as it was.
ghost use Rattle.std.specs.Prelude.{is_some, OnOk};
ghost use Rattle.std.specs.Io.KnownBytes.{Appends};
ghost use Rattle.nomutanku.specs.Answers.{IsWritten};

use crate::failed::Failed;
use command::Shown;
use lines::write_all;
use std::fs::{OpenFile, OpenOptions};
use std::io::{ErrorKind, Write};
use std::rt::Files;
use std::{fs, io};

/// How many names of a new file are tried, in a folder that others have left such files in.
const TRIES: u32 = 1000;

/// A new file beside a path, under a name that no file has, and that name.
fn create_beside<R: Files + AllocGlobal>(rt: &R, path: &str) -> Result<(String, R::File), Failed> {
    for turn in 0..TRIES {
        let name = format!(in rt.alloc(); "{path}.part.{turn}")?;
        match OpenOptions::new()
            .write(true)
            .create_new(true)
            .open(rt, name.as_str())
        {
            Ok(file) => return Ok((name, file)),
            Err(error) if error.kind() == ErrorKind::AlreadyExists => {}
            Err(error) => return Err(Failed::Output(error)),
        }
    }
    Err(Failed::Output(io::Error::from(ErrorKind::AlreadyExists)))
}

/// Writes a table to a new file, and waits until the disk has it.
fn write_new<F: Write + OpenFile>(file: &mut F, table: &[u8]) -> io::Result<()>
    ensures ok { OnOk result (Appends (F.contents file.old) (F.contents file.new) table.now) }
{
    write_all(file, table)?;
    file.sync_all()
}

/// Puts a file in the place of another, or where none is: beside it first, then under its name.
fn replace<R: Files + AllocGlobal>(rt: &R, path: &str, table: &[u8]) -> Result<(), Failed> {
    let (name, mut file) = create_beside(rt, path)?;
    let mut written = write_new(&mut file, table);
    if written.is_ok() {
        written = fs::rename(rt, name.as_str(), path);
    }
    if let Err(error) = written {
        let _ = fs::remove_file(rt, name.as_str());
        return Err(Failed::Output(error));
    }
    Ok(())
}

/// Writes to what is no regular file, as a device or a pipe.
fn write_straight(rt: &impl Files, path: &str, table: &[u8]) -> Result<(), Failed> {
    let mut file = fs::create(rt, path).map_err(Failed::Output)?;
    write_all(&mut file, table).map_err(Failed::Output)
}

/// Writes a table to a file. What a link leads to is written, and not the link.
fn write_file<R: Files + AllocGlobal>(rt: &R, path: &str, table: &[u8]) -> Result<(), Failed> {
    let Ok(found) = fs::symlink_metadata(rt, path) else {
        return replace(rt, path, table);
    };
    if found.is_file() {
        return replace(rt, path, table);
    }
    match fs::metadata(rt, path) {
        Ok(found) if found.is_file() => {
            let path = fs::canonicalize(rt, path).map_err(Failed::Output)?;
            replace(rt, path.as_str(), table)
        }
        _ => write_straight(rt, path, table),
    }
}

/// Writes a table to a file, or to standard output where none is named. Where the file does not take all of it, it
/// says why, and answers `false`.
pub fn write_table<R: Print + Eprint + Files + AllocGlobal>(
    rt: &R,
    table: &[u8],
    path: Option<&str>,
) -> Result<bool, Failed>
    ensures { IsWritten (is_some path.entry) result }
{
    let Some(path) = path else {
        write_all(&mut io::writer(rt), table).map_err(Failed::Output)?;
        return Ok(true);
    };
    match write_file(rt, path, table) {
        Ok(()) => Ok(true),
        Err(Failed::Output(error)) => {
            if error.kind() != ErrorKind::BrokenPipe {
                let _ = eprintln!(rt; "nomutanku: {}: {error}", Shown(path));
            }
            Ok(false)
        }
        Err(Failed::Memory) => Err(Failed::Memory),
    }
}
