// Why a call is refused.
ghost use Rattle.std.specs.Prelude.{◌≡◌, pos};
ghost use Rattle.refusal.specs.Reason.{code_of};
ghost use Rattle.refusal.specs.Refusal.{answer_of};

use crate::{Answer, refused};

// Each with its code. 11 and 13 are not among them: their answers name rows.
#[derive(Clone, Copy, PartialEq, Eq, Debug)]
pub enum Reason {
    NoTransaction = 1,
    IsRoot = 2,
    UnderAccess = 3,
    Finished = 4,
    Orphaned = 5,
    NoObject = 6,
    Unfit = 7,
    Full = 8,
    NoAccess = 9,
    Answered = 10,
    Unanswered = 12,
    BadOpening = 14,
    Malformed = 15,
}

impl Reason {
    pub fn code(self) -> u32
        ensures { result ≡ code_of self }
    {
        self as u32
    }
}

impl From<Reason> for Answer {
    ghost from_gives = { λ reason answer. answer ≡ answer_of (code_of reason) 0 (pos 0) };

    fn from(reason: Reason) -> Answer {
        refused(reason.code())
    }
}
