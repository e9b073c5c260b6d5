//! The command line.
ghost use Rattle.std.specs.Prelude.{IfOk, codes};
ghost use Rattle.clap.specs.Simple.{new_shape};
ghost use Rattle.nomutanku.specs.CommandLine.{IsRead, Is, leaf, number_rule, text_rule, flag_rule, tables_rule};
ghost use Rattle.nomutanku.specs.CommandLine.{file_rule, table_rule, word_rule};
ghost use Rattle.nomutanku.specs.CommandLine.{list_shape, rows_shape, record_shape, extract_shape};
ghost use Rattle.nomutanku.specs.CommandLine.{merge_shape, explain_shape, program_shape, command_line};

use clap::{Arg, ArgAction, Command, value_parser};
use std::alloc::{AllocError, Global};

/// By this id the inputs that are named are asked for.
pub const INPUTS: &str = "inputs";

/// By this id the raw $MFT is asked for that records are listed from.
pub const MFT: &str = "mft";

/// By this id the name is asked for that files of a raw $MFT are listed by.
pub const FIND: &str = "find";

/// By this id the file that a table goes to is asked for.
pub const TABLE: &str = "table";

/// By this id the first of two tables is asked for that are made one.
pub const FIRST_TABLE: &str = "first";

/// By this id the second of them is asked for.
pub const SECOND_TABLE: &str = "second";

const STATUSES: &str =
    "Exit status, the worst of several: 0 whole, 1 stopped, or a record refused, 2 refused: no table,\n\
    no such record, or two tables that are not made one, 3 unreadable or out of memory, 64 bad usage,\n\
    74 output not written.";

const PROTECTED: &str =
    "A record as it lies on the disk is protected: the last two bytes of each 512 are replaced by a\n\
    check number. What is wanted here is the record fixed up, which has its own bytes there again.";

const LISTED: &str =
    "With --mft each word names a record of a raw $MFT of any size, by its number, and only the records\n\
    are read that its listing takes. --size and --first tell how they stand in it. --all and --find go\n\
    over all of it, in the place of words.";

const EXTRACTS: &str =
    "An extract has records as they lie on the disk, one behind another; one at position P, from 0 on,\n\
    has the number of the first and P. The report goes to standard error: how many records were\n\
    written, how many were left out since they begin otherwise than with FILE, how many were refused.";

const MERGES: &str =
    "The table has each row of both, in the order of their numbers, and no base row. A number that both\n\
    have is there once, and has to have the same bytes in both; else there is no table, and the lowest\n\
    such number is told. How many rows there are goes to standard error.";

const FIRST_OF_TWO: &str = "The first table; - is standard input, for one of the two";

const SECOND_OF_TWO: &str = "The second table, with records of the same size";

const SIZE: &str = "Records have N bytes; as many as the first one tells where it is left out";

const FIRST: &str = "The number of the record at position 0; 0 where it is left out";

const JSON: &str = "Write an object of JSON for each line";

const RAW_MFT: &str =
    "List records of this raw $MFT, which are named by their numbers in the place of tables";

const EVERY: &str = "List every base record in use of the raw $MFT";

const BY_NAME: &str =
    "List every base record in use whose file has this name, capitals told apart: all are gone over";

const NAMES: &str = "Put a file's name behind its number";

const STRICT: &str = "Exit with 1 where a record shows that it may be another file's";

const FROM: &str = "Begin with the record at this position; at 0 where it is left out";

const COUNT: &str = "Take N records at most; all that follow where it is left out";

const EXTRACT: &str =
    "An extract of a raw $MFT; - is standard input, as is none where something is piped in";

// `--ID N`, where N goes by a name
fn number<'a>(alloc: Global, id: &'a str, name: &'a str, help: &'a str) -> Arg<'a>
    ensures { IsRead (number_rule id.entry.now) result }
{
    Arg::new(alloc, id)
        .long(id)
        .value_name(name)
        .value_parser(value_parser!(u64))
        .help(help)
}

// `--ID TEXT`, where TEXT goes by a name
fn text<'a>(alloc: Global, id: &'a str, name: &'a str, help: &'a str) -> Arg<'a>
    ensures { IsRead (text_rule id.entry.now) result }
{
    Arg::new(alloc, id).long(id).value_name(name).help(help)
}

// `--ID`
fn flag<'a>(alloc: Global, id: &'a str, help: &'a str) -> Arg<'a>
    ensures { IsRead (flag_rule id.entry.now) result }
{
    Arg::new(alloc, id)
        .long(id)
        .action(ArgAction::SetTrue)
        .help(help)
}

fn tables<'a>(alloc: Global) -> Arg<'a>
    ensures { IsRead tables_rule result }
{
    Arg::new(alloc, INPUTS)
        .value_name("TABLE")
        .action(ArgAction::Append)
        .num_args(0..)
        .help("Tables of records; - is standard input, as is none where something is piped in")
}

// `list` without its options
fn listing<'a>(alloc: Global) -> Command<'a>
    ensures { Is (leaf (new_shape (codes "list"))) result }
{
    Command::new(alloc, "list")
        .about("List the attributes of a table's base record, with their parts and cluster runs")
        .after_help(LISTED)
}

fn list<'a>(alloc: Global) -> Result<Command<'a>, AllocError>
    ensures { IfOk result (Is (leaf list_shape)) }
{
    let base = number(
        alloc,
        "base",
        "N",
        "List the record with number N, where it is not the base row that is wanted",
    );
    let size = number(alloc, "size", "N", SIZE);
    let first = number(alloc, "first", "N", FIRST);
    listing(alloc)
        .arg(base)?
        .arg(text(alloc, MFT, "MFT", RAW_MFT))?
        .arg(size)?
        .arg(first)?
        .arg(flag(alloc, "all", EVERY))?
        .arg(text(alloc, FIND, "NAME", BY_NAME))?
        .arg(flag(alloc, "names", NAMES))?
        .arg(flag(alloc, "strict", STRICT))?
        .arg(flag(alloc, "json", JSON))?
        .arg(tables(alloc))
}

fn rows<'a>(alloc: Global) -> Result<Command<'a>, AllocError>
    ensures { IfOk result (Is (leaf rows_shape)) }
{
    Command::new(alloc, "rows")
        .about("Tell what a table holds: each row's record number, place and state")
        .arg(flag(alloc, "json", JSON))?
        .arg(tables(alloc))
}

fn one_record<'a>(alloc: Global) -> Result<Command<'a>, AllocError>
    ensures { IfOk result (Is (leaf record_shape)) }
{
    let number = number(
        alloc,
        "number",
        "N",
        "The record's number, which its lines name; 0 where it is left out",
    );
    let file = file(
        alloc,
        "FILE",
        "One fixed-up record; - is standard input, as is none where something is piped in",
    );
    Command::new(alloc, "record")
        .about(
            "Tell one fixed-up record's header, and its attributes as they stand in it, with their runs",
        )
        .after_help(PROTECTED)
        .arg(number)?
        .arg(flag(alloc, "json", JSON))?
        .arg(file)
}

// `[FILE]`, by a name
fn file<'a>(alloc: Global, name: &'a str, help: &'a str) -> Arg<'a>
    ensures { IsRead file_rule result }
{
    Arg::new(alloc, INPUTS).value_name(name).help(help)
}

// `-o TABLE`
fn table<'a>(alloc: Global) -> Arg<'a>
    ensures { IsRead table_rule result }
{
    Arg::new(alloc, TABLE).short('o').value_name("TABLE").help(
        "Write the table to this file, whole or not at all, and not to standard output",
    )
}

fn extract<'a>(alloc: Global) -> Result<Command<'a>, AllocError>
    ensures { IfOk result (Is (leaf extract_shape)) }
{
    let size = number(alloc, "size", "N", SIZE);
    let first = number(alloc, "first", "N", FIRST);
    let from = number(alloc, "from", "POSITION", FROM);
    let count = number(alloc, "count", "N", COUNT);
    Command::new(alloc, "extract")
        .about("Make a table of the records of a raw $MFT, each fixed up")
        .after_help(EXTRACTS)
        .arg(size)?
        .arg(first)?
        .arg(from)?
        .arg(count)?
        .arg(table(alloc))?
        .arg(file(alloc, "MFT", EXTRACT))
}

// A word that has to be there, which goes by a name
fn word<'a>(alloc: Global, id: &'a str, name: &'a str, help: &'a str) -> Arg<'a>
    ensures { IsRead (word_rule id.entry.now) result }
{
    let word = Arg::new(alloc, id).required(true);
    word.value_name(name).help(help)
}

fn merge<'a>(alloc: Global) -> Result<Command<'a>, AllocError>
    ensures { IfOk result (Is (leaf merge_shape)) }
{
    Command::new(alloc, "merge")
        .about("Make one table of two, as of the halves of one disk")
        .after_help(MERGES)
        .arg(table(alloc))?
        .arg(word(alloc, FIRST_TABLE, "A", FIRST_OF_TWO))?
        .arg(word(alloc, SECOND_TABLE, "B", SECOND_OF_TWO))
}

fn explain<'a>(alloc: Global) -> Result<Command<'a>, AllocError>
    ensures { IfOk result (Is (leaf explain_shape)) }
{
    let number = Arg::new(alloc, "number")
        .value_name("N")
        .required(true)
        .value_parser(value_parser!(u64))
        .help("The number of a refusal, as a listing has it behind `refused` and `stopped`");
    Command::new(alloc, "explain")
        .about("Say what the number of a refusal means")
        .arg(number)
}

// The program without its subcommands.
fn program<'a>(alloc: Global) -> Command<'a>
    ensures { Is (leaf program_shape) result }
{
    Command::new(alloc, "nomutanku")
        .version("2.0.0")
        .about("Reads NTFS file records")
        .after_help(STATUSES)
        .subcommand_required(true)
        .arg_required_else_help(true)
}

/// The subcommands, with their options.
pub fn command<'a>(alloc: Global) -> Result<Command<'a>, AllocError>
    ensures { IfOk result (Is command_line) }
{
    program(alloc)
        .subcommand(list(alloc)?)?
        .subcommand(rows(alloc)?)?
        .subcommand(one_record(alloc)?)?
        .subcommand(extract(alloc)?)?
        .subcommand(merge(alloc)?)?
        .subcommand(explain(alloc)?)
}
