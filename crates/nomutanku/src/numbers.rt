//! Numbers among the options.
ghost use Rattle.nomutanku.specs.Wishes.{value_of, Counts};

use clap::ArgMatches;

/// The number that an option has as its value; none where it is left out.
pub fn number(options: &ArgMatches, id: &str) -> Option<u64>
    ensures { Counts (value_of options.now id.now) result }
{
    options.get_one::<u64>(id)
}
