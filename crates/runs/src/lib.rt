//! Cluster runs: where the clusters of a non-resident attribute lie on the volume (RULES 21). Each call is handed the
//! run bytes that begin at the next run, and answers for them alone.
#![tactic(auto)]

mod iterate;
pub mod laws;
mod number;
mod run;

ghost use Rattle.std.specs.Prelude.{◌≡◌, ◌≤◌, ℕ, false, length, IfOk};
ghost use Rattle.fields.specs.Answer.{gives};
ghost use Rattle.fields.specs.Told.{told_step};
ghost use Rattle.fields.specs.declared.RecordNumber.{RecordNumber};
ghost use Rattle.runs.specs.Run.{length_size, distance_size, run_size, are_bad, head, placed, run_of};
ghost use Rattle.runs.specs.Run.{carried_after, taken_by};
ghost use Rattle.runs.specs.Told.{told_placed};

use crate::number::{WIDEST, in_range, number_at, start_of};
use fields::{Cause, Lcn, RecordNumber, Refusal};
pub use iterate::Runs;
pub use run::{Carried, Decoded, Run};

const HEADER_SIZE: usize = 1;

// How many bytes the two numbers of a run take.
#[derive(Clone, Copy)]
struct Sizes {
    length: usize,
    distance: usize,
}

// By a header byte: its low four bits and its high four.
fn sizes_of(head: u8) -> Sizes
    ensures length { result.length ≡ length_size head }
    ensures distance { result.distance ≡ distance_size head }
{
    Sizes {
        length: usize::from(head % 16),
        distance: usize::from(head / 16),
    }
}

// The run whose numbers take so many bytes, with what goes on from it: 25, then 26.
#[tactic(auto, unfolding(crate::specs::Run::placed))]
fn placed(rest: &[u8], sizes: Sizes, carried: Carried) -> Result<(Run, Carried), Cause>
    requires length { sizes.length ≡ length_size (head rest.now) }
    requires distance { sizes.distance ≡ distance_size (head rest.now) }
    requires good { are_bad (head rest.now) ≡ false }
    requires there { run_size (head rest.now) ≤ length rest.now }
    ensures run { (file : RecordNumber) (place : ℕ) →
        told_placed file place result ≡ placed rest.now carried file place }
    ensures onward { IfOk result (λ r. r.1 ≡ carried_after carried (gives r.0)) }
{
    let behind = HEADER_SIZE + sizes.length;
    let length = number_at(rest, HEADER_SIZE, sizes.length);
    if length == 0 {
        return Err(Cause::RunEmpty);
    }
    let Some(sum) = in_range(u128::from(carried.sum) + u128::from(length)) else {
        return Err(Cause::RunRange);
    };
    if sizes.distance == 0 {
        let last = carried.last;
        return Ok((Run::Hole { length }, Carried { last, sum }));
    }
    let distance = number_at(rest, behind, sizes.distance);
    let Some(last) = start_of(sizes.distance as u32, distance, carried.last) else {
        return Err(Cause::RunRange);
    };
    let start = Lcn(last);
    Ok((Run::Clusters { start, length }, Carried { last, sum }))
}

/// The next run of some run bytes, or the end, or a refusal, told with the record's number and the place of the run
/// in it.
// The rest and its place are no struct: the bytes are cut anew at each run, as a list is at each entry.
#[tactic(auto, unfolding(crate::specs::Run::run_of))]
pub fn step(rest: &[u8], carried: Carried, file: RecordNumber, place: usize) -> Decoded
    ensures answer { told_step result.answer ≡ run_of rest.now carried file place }
    ensures carried { result.carried ≡ carried_after carried (run_of rest.now carried file place) }
    ensures taken { result.taken ≡ taken_by rest.now (run_of rest.now carried file place) }
    ensures fits { result.taken ≤ length rest.now }
{
    let head = match rest.first() {
        Some(head) => *head,
        None => 0,
    };
    if head == 0 {
        return carried.stays(Ok(None));
    }
    let sizes = sizes_of(head);
    if WIDEST < sizes.length || WIDEST < sizes.distance || sizes.length == 0 {
        return carried.stays(Cause::RunSize.refuses(file, place));
    }
    let taken = HEADER_SIZE + sizes.length + sizes.distance;
    if rest.len() < taken {
        return carried.stays(Cause::RunCut.refuses(file, place));
    }
    match placed(rest, sizes, carried) {
        Ok((run, carried)) => Decoded {
            answer: Ok(Some(run)),
            carried,
            taken,
        },
        Err(cause) => carried.stays(cause.refuses(file, place)),
    }
}
