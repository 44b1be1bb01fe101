// Why a call is refused: each call's refusals, tried in their order.
#![tactic(auto)]

mod ask;
mod create;
mod finish;
mod open;
mod reason;
mod row;

ghost use Rattle.std.specs.Prelude.{◌≡◌, pos};
ghost use Rattle.refusal.specs.Refusal.{answer_of};

pub use ask::{check_ask, wait_answer};
pub use create::check_create;
pub use finish::{check_finish, child_answer, is_unanswered, open_child};
pub use open::openable;
pub use reason::Reason;

#[derive(Clone, Copy)]
pub struct Answer {
    pub code: u32,
    pub a: u32,
    pub b: i64,
}

impl Answer {
    // The call is done, and nothing refuses it.
    pub fn done(a: u32, b: i64) -> Answer
        ensures { result ≡ answer_of 0 a b }
    {
        Answer { code: 0, a, b }
    }
}

// An answer with a and b 0.
pub fn refused(code: u32) -> Answer
    ensures { result ≡ answer_of code 0 (pos 0) }
{
    Answer { code, a: 0, b: 0 }
}

// What an access asks of an object.
#[derive(Clone, Copy, Default)]
pub struct Request {
    pub object: u32,
    pub operation: u32,
    pub argument: i64,
}

// What is created.
#[derive(Clone, Copy)]
pub enum Child {
    Plain,
    Access(Request),
}
