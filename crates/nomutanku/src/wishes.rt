//! What a subcommand's options ask for.
ghost use Rattle.std.specs.Prelude.{codes};
ghost use Rattle.nomutanku.specs.Wishes.{value_of, Forms, Wishes};

use crate::inputs::Wish;
use crate::numbers::number;
use clap::ArgMatches;
use command::Asked;
use fields::RecordNumber;
use report::Form;

/// The form in which lines are told.
pub fn form(options: &ArgMatches) -> Form
    ensures { Forms (value_of options.now (codes "json")) result }
{
    if options.get_flag("json") {
        Form::Json
    } else {
        Form::Text
    }
}

/// What the subcommand with a name asks for, with its options; none for one that asks nothing of inputs.
pub fn wish<'a>(name: &str, options: &ArgMatches) -> Option<Wish<'a>>
    ensures { Wishes name.now options.now result }
{
    let (asked, usage) = match name {
        "list" => (
            Asked::Listing(number(options, "base").map(RecordNumber)),
            "name a table, or pipe one in: nomutanku list --help",
        ),
        "rows" => (
            Asked::Rows,
            "name a table, or pipe one in: nomutanku rows --help",
        ),
        "record" => (
            Asked::Record(RecordNumber(number(options, "number").unwrap_or(0))),
            "name a record's file, or pipe one in: nomutanku record --help",
        ),
        _ => return None,
    };
    Some(Wish {
        asked,
        form: form(options),
        usage,
    })
}
