//! `nomutanku explain N`.
ghost use Rattle.std.specs.Prelude.{◌≡◌};
ghost use Rattle.command.specs.Explain.{explained};
ghost use Rattle.command.specs.declared.explain.TheConstants.{CAUSES};
ghost use Rattle.nomutanku.specs.Answers.{ExplainsNumber};

use crate::failed::Failed;
use crate::numbers::number;
use clap::ArgMatches;
use command::{Status, cause_of};
use fields::Cause;

/// The cause with a number, if there is one.
#[tactic(auto, using(crate::proofs::Causes::none_past))]
fn cause(number: u64) -> Option<Cause>
    ensures { result ≡ explained CAUSES number }
{
    match u8::try_from(number) {
        Ok(number) => cause_of(number),
        Err(_) => None,
    }
}

/// Says what the number of a refusal means.
pub fn obey(rt: &(impl Print + Eprint), options: &ArgMatches) -> Result<Status, Failed>
    ensures { ExplainsNumber options.now result }
{
    // no refusal has the number 0
    let asked = number(options, "number").unwrap_or(0);
    match cause(asked) {
        Some(cause) => {
            println!(rt; "{asked}: {cause}").map_err(Failed::Output)?;
            Ok(Status::Whole)
        }
        None => {
            let _ = eprintln!(rt; "nomutanku: there is no refusal {asked}");
            Ok(Status::Usage)
        }
    }
}
