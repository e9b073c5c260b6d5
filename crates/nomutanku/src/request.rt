//! What the options of `list` ask of a raw $MFT, and what is wrong with them.
use crate::inputs::STANDARD_INPUT;
use crate::numbers::number;
use crate::options::{FIND, INPUTS, MFT};
use crate::wishes::form;
use clap::ArgMatches;
use command::Extraction;
use fields::RecordNumber;
use mft::Manner;
use report::Form;
use thiserror::Error;

/// What the options of `list` ask of a raw $MFT.
#[derive(Clone, Copy)]
pub struct Request<'a> {
    /// The file.
    pub mft: Option<&'a str>,
    /// Whether a record is named by `--base`, as one of a table is.
    pub base: bool,
    /// How its records stand in it.
    pub size: Option<u64>,
    pub first: Option<u64>,
    /// Whether all of its base records in use are gone over, and the name of which each has to have one.
    pub all: bool,
    pub find: Option<&'a str>,
    /// Whether a file's name is put behind its number.
    pub names: bool,
    /// Whether a hazard changes the status.
    pub strict: bool,
    pub form: Form,
    /// The words that name records.
    pub words: &'a [&'a str],
}

/// What is wrong with a command line that speaks of a raw $MFT.
#[derive(Clone, Copy, Debug, PartialEq, Eq, Error)]
pub enum Wrong {
    #[error("--size, --first, --all, --find, --names and --strict go with --mft alone")]
    NoMft,
    #[error("--base does not go with --mft: name the records")]
    Base,
    #[error("--mft wants a file, which can be gone to places of, and not standard input")]
    StandardInput,
    #[error("--all and --find go over all base records in use: name none beside them")]
    Words,
    #[error("--mft wants the numbers of records, or --all, or --find")]
    NoWords,
}

impl<'a> Request<'a> {
    ghost use Rattle.std.specs.Prelude.{◌≡◌};
    ghost use Rattle.nomutanku.specs.Door.{AsksMft, speaks_of_mft, goes_over_all, checked_of, text_of, lent_of};
    ghost use Rattle.nomutanku.specs.Door.{manner_of, extraction_of};

    /// What these options ask for.
    pub fn of(options: &'a ArgMatches<'_>) -> Request<'a>
        ensures { AsksMft options.now result }
    {
        Request {
            mft: options.get_str(MFT),
            base: options.contains_id("base"),
            size: number(options, "size"),
            first: number(options, "first"),
            all: options.get_flag("all"),
            find: options.get_str(FIND),
            names: options.get_flag("names"),
            strict: options.get_flag("strict"),
            form: form(options),
            words: options.get_strs(INPUTS).unwrap_or(&[]),
        }
    }

    /// Whether any of it speaks of a raw $MFT.
    pub fn speaks_of_mft(&self) -> bool
        ensures { result ≡ speaks_of_mft self.now }
    {
        self.mft.is_some()
            || self.size.is_some()
            || self.first.is_some()
            || self.all
            || self.find.is_some()
            || self.names
            || self.strict
    }

    /// Whether all base records in use are gone over.
    pub fn goes_over_all(&self) -> bool
        ensures { result ≡ goes_over_all self.now }
    {
        self.all || self.find.is_some()
    }

    /// The file whose records are listed, or what is wrong with the command line.
    pub fn checked(&self) -> Result<&'a str, Wrong>
        ensures { lent_of result ≡ checked_of self.now (text_of self.now.mft) }
    {
        let Some(name) = self.mft else {
            return Err(Wrong::NoMft);
        };
        if self.base {
            return Err(Wrong::Base);
        }
        if name == STANDARD_INPUT {
            return Err(Wrong::StandardInput);
        }
        match (self.goes_over_all(), self.words) {
            (true, [_, ..]) => Err(Wrong::Words),
            (false, []) => Err(Wrong::NoWords),
            _ => Ok(name),
        }
    }

    /// How a record is listed.
    pub fn manner(&self) -> Manner
        ensures { result ≡ manner_of self.now }
    {
        Manner {
            form: self.form,
            named: self.names,
        }
    }

    /// How the records stand in the file.
    pub fn extraction(&self) -> Extraction
        ensures { result ≡ extraction_of self.now }
    {
        Extraction {
            size: self.size,
            first: RecordNumber(self.first.unwrap_or(0)),
            from: 0,
            count: None,
        }
    }
}
