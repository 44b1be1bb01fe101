// The kinds of document 01 and requests Q-1 to Q-3: their states and operations, their limits and numbers, the state that each opens with, and its conflict table.
// A kind's own part is in its own file. specs/ says besides what an operation does; `account`, `register`, `counter`, `bin` and `serial` have the functions that do it.
#![tactic(auto)]

mod account;
mod bin;
mod counter;
mod outcome;
pub mod range;
mod register;
mod table;

pub use account::{Account, AccountOperation};
pub use bin::{Bin, BinOperation};
pub use counter::{Counter, CounterOperation};
pub use outcome::{Numbers, Outcome, Shape};
pub use register::{Register, RegisterOperation};
pub use table::{Class, Rule};

// Unknown is a kind too: it opens with nothing, takes nothing, and conflicts with everything. So what is said of kinds is said of every letter.
#[derive(Clone, Copy)]
pub enum Kind {
    Account,
    Register,
    Counter,
    Bin,
    Unknown,
}

#[derive(Clone, Copy)]
pub enum Operation {
    Account(AccountOperation),
    Register(RegisterOperation),
    Counter(CounterOperation),
    Bin(BinOperation),
}

#[derive(Clone, Copy)]
pub enum State {
    Account(Account),
    Register(Register),
    Counter(Counter),
    Bin(Bin),
}

// An operation with its outcome.
#[derive(Clone, Copy)]
pub struct Answered {
    pub operation: Operation,
    pub outcome: Outcome,
}

#[derive(Clone, Copy)]
pub struct Stepped {
    pub state: State,
    pub outcome: Outcome,
}
