//! One table of two inputs.
ghost use Rattle.std.specs.Prelude.{◌≡◌, ℕ, List, Some, option_map, IfOk, IfErr, IfSome, IsSome};
ghost use Rattle.table.specs.Check.{table_of};
ghost use Rattle.command.specs.declared.asked.Asked.TheVariants.{Rows};
ghost use Rattle.command.specs.declared.merge_failure.MergeFailure.TheVariants.{NoTable};
ghost use Rattle.command.specs.Flaw.{flaw_of};
ghost use Rattle.command.specs.Read.{IsEnough};
ghost use Rattle.command.specs.Merging.{sizes_of, both_of, failure_of};
ghost use Rattle.command.specs.Merging.{IsUnreadOf, Merges};
ghost use Rattle.command.specs.Unread.{unread_of};

use crate::{Asked, Flaw, MergeFailure, Reason, Side, read_input};
use fields::{Cause, Refusal};
use merge::laws::rooms_are_enough;
use merge::{Merged, Pair, Unmerged};
use std::alloc::Global;
use std::io::Read;
use table::Table;

/// A table that was made of two, and what is reported of it.
#[derive(Drop)]
pub struct MergedTable {
    pub table: Vec<u8>,
    pub merged: Merged,
}

// Why an input is not there to be merged.
fn unread(side: Side, reason: Reason) -> MergeFailure
    ensures { result ≡ unread_of side reason }
{
    match reason {
        Reason::Unreadable(error) => MergeFailure::Unreadable(side, error),
        _ => MergeFailure::OutOfMemory,
    }
}

/// Reads one of two tables as far as it matters, and no further: its header, and what that calls for.
pub fn read_table<R: Read>(
    alloc: Global,
    side: Side,
    input: &mut R,
) -> Result<Vec<u8>, MergeFailure>
    ensures ok { IfOk result (λ bytes. IfSome (R.remaining input.old) (IsEnough Rows bytes.items)) }
    ensures err { IfErr result (IsUnreadOf side) }
{
    match read_input(alloc, input, Asked::Rows) {
        Ok(bytes) => Ok(bytes),
        Err(reason) => Err(unread(side, reason)),
    }
}

// The record sizes of two tables.
fn sizes(first: &[u8], second: &[u8]) -> Option<MergeFailure>
    ensures { result ≡ sizes_of (table_of first.now) (table_of second.now) }
{
    match (Table::check(first), Table::check(second)) {
        (Ok(first), Ok(second)) => {
            Some(MergeFailure::Sizes(first.header.size, second.header.size))
        }
        _ => None,
    }
}

// Why two tables are refused together: by 32 or by 34. 35, of a short buffer, is no reason.
fn both(first: &[u8], second: &[u8], refusal: Refusal) -> Option<MergeFailure>
    ensures { result ≡ both_of first.now second.now refusal }
{
    if refusal.cause.number() == Cause::SizesDiffer.number() {
        return sizes(first, second);
    }
    if refusal.cause.number() == Cause::TooManyRows.number() {
        return Some(MergeFailure::TooManyRows);
    }
    None
}

// One of two tables that is none, by its bytes.
fn no_table(side: Side, bytes: &[u8]) -> Option<MergeFailure>
    ensures { result ≡ option_map (λ flaw. NoTable side flaw) (flaw_of bytes.now) }
{
    Some(MergeFailure::NoTable(side, Flaw::of(bytes)?))
}

// Why two tables are not merged, by what refuses them.
#[tactic(auto, unfolding(crate::specs::Merging::failure_of))]
fn failure(first: &[u8], second: &[u8], unmerged: Unmerged) -> Option<MergeFailure>
    ensures { result ≡ failure_of first.now second.now unmerged }
{
    match unmerged {
        Unmerged::First(_) => no_table(Side::First, first),
        Unmerged::Second(_) => no_table(Side::Second, second),
        Unmerged::Clash(number, _) => Some(MergeFailure::Clash(number)),
        Unmerged::Both(refusal) => both(first, second, refusal),
    }
}

// The same, of what is a reason.
fn told(first: &[u8], second: &[u8], unmerged: Unmerged) -> MergeFailure
    requires { IsSome (failure_of first.now second.now unmerged) }
    ensures { failure_of first.now second.now unmerged ≡ Some result }
{
    match failure(first, second, unmerged) {
        Some(failure) => failure,
        None => unreachable!(),
    }
}

// The table of two that may be merged, in a buffer that is never too short.
fn fill_pair(alloc: Global, pair: &Pair) -> Result<MergedTable, MergeFailure>
    ensures { Merges pair.now.first.bytes.now pair.now.second.bytes.now result }
{
    rooms_are_enough();
    let Ok(mut table) = vec![in alloc; 0; pair.room()] else {
        return Err(MergeFailure::OutOfMemory);
    };
    match pair.write(&mut table) {
        Ok(merged) => {
            table.truncate(merged.length);
            Ok(MergedTable { table, merged })
        }
        Err(unmerged) => Err(told(pair.first.bytes, pair.second.bytes, unmerged)),
    }
}

// One table of two.
fn join(alloc: Global, first: &[u8], second: &[u8]) -> Result<MergedTable, MergeFailure>
    ensures { Merges first.now second.now result }
{
    match Pair::check(first, second) {
        Ok(pair) => fill_pair(alloc, &pair),
        Err(unmerged) => Err(told(first, second, unmerged)),
    }
}

/// Makes one table of two inputs, of which these bytes were read, each as far as it matters.
pub fn merge_tables(alloc: Global, first: &[u8], second: &[u8]) -> Result<MergedTable, MergeFailure>
    ensures { (s t : List ℕ) → IsEnough Rows first.now s → IsEnough Rows second.now t → Merges s t result }
{
    join(alloc, first, second)
}
