//! How a record's listing went.
use crate::Lost;
use command::{Reason, Status};
use fields::RecordNumber;
use segments::Hazard;
use std::alloc::Global;

/// How a record's listing went.
#[derive(Drop)]
pub struct Told {
    pub number: RecordNumber,
    /// The records that it lacks.
    pub lost: Vec<Lost>,
    /// What shows that a record may not be the file's (RULES 25.3).
    pub hazards: Vec<Hazard>,
    /// Why it does not come to its end, or is none, if so.
    pub reason: Option<Reason>,
}

impl Told {
    ghost use Rattle.std.specs.Prelude.{◌≡◌, ◌≤◌, max, [], Some};
    ghost use Rattle.command.specs.Status.{code_of};
    ghost use Rattle.command.specs.declared.status.Status.TheVariants.{Unreadable};
    ghost use Rattle.mft.specs.Told.{code_by, code_if, has_any, worst_of};

    /// Nothing is written of a record, for a reason.
    pub(crate) fn skipped(alloc: Global, number: RecordNumber, reason: Reason) -> Told
        ensures number { result.number ≡ number }
        ensures lost { result.lost.items ≡ [] }
        ensures hazards { result.hazards.items ≡ [] }
        ensures reason { result.reason ≡ Some reason }
    {
        Told::unsought(alloc, number, Vec::new(alloc), reason)
    }

    /// The same of one that lacks some records.
    pub(crate) fn unsought(
        alloc: Global,
        number: RecordNumber,
        lost: Vec<Lost>,
        reason: Reason,
    ) -> Told
        ensures number { result.number ≡ number }
        ensures lost { result.lost ≡ lost }
        ensures hazards { result.hazards.items ≡ [] }
        ensures reason { result.reason ≡ Some reason }
    {
        Told {
            number,
            lost,
            hazards: Vec::new(alloc),
            reason: Some(reason),
        }
    }

    // Where something is the matter, if it is.
    fn stopped_if(is: bool) -> Status
        ensures { code_of result ≡ code_if is }
    {
        if is { Status::Stopped } else { Status::Whole }
    }

    // The status by the reason, if there is one.
    fn by_reason(&self) -> Status
        ensures { code_of result ≡ code_by self.now.reason }
    {
        match self.reason {
            Some(reason) => reason.status(),
            None => Status::Whole,
        }
    }

    /// The status that follows, the worst of all; where that is to be strict, hazards count too.
    pub fn status(&self, strict: bool) -> Status
        ensures worst { code_of result ≡ worst_of strict self.now }
        ensures most { code_of result ≤ code_of Unreadable }
    {
        self.by_reason()
            .worse(Told::stopped_if(!self.lost.is_empty()))
            .worse(Told::stopped_if(strict && !self.hazards.is_empty()))
    }
}
