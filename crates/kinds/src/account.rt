// The account: its limits, its opening state, its operations and its conflict table.
ghost use Rattle.std.specs.Prelude.{◌≡◌};
ghost use Rattle.kinds.specs.Account.{opened_of, table};
ghost use Rattle.kinds.specs.Table.{entry};

use crate::State;
use crate::range::within;
use crate::table::{Rule, entry_of};

#[derive(Clone, Copy)]
pub struct Account {
    pub balance: u32,
}

#[derive(Clone, Copy)]
pub enum AccountOperation {
    Balance,
    Deposit(u32),
    Withdraw(u32),
}

impl Account {
    pub const OPENING_LEAST: u32 = 0;

    pub const OPENING_MOST: u32 = 1_000_000_000;

    // The numbers of its operations, as a call has them.
    pub const BALANCE: u32 = 1;

    pub const DEPOSIT: u32 = 2;

    pub const WITHDRAW: u32 = 3;

    pub const NO_ARGUMENT: i64 = 0;

    pub const AMOUNT_LEAST: u32 = 1;

    pub const AMOUNT_MOST: u32 = 1_000_000;

    // What a balance answers: up to the largest opening and 1,024 deposits of the largest size.
    pub const ANSWER_LEAST: i64 = 0;

    pub const ANSWER_MOST: i64 = 2_024_000_000;

    // The rows and columns of its table: numbers, since any may be asked for.
    pub const BALANCE_ROW: usize = 0;

    pub const DEPOSIT_ROW: usize = 1;

    pub const DRAWN_ROW: usize = 2;

    pub const SHORT_ROW: usize = 3;

    const ROWS: usize = 4;

    const TABLE: [[Rule; Account::ROWS]; Account::ROWS] = [
        [Rule::Pass, Rule::Conflict, Rule::IfAtLeast, Rule::Pass],
        [Rule::Conflict, Rule::Pass, Rule::Pass, Rule::Conflict],
        [Rule::IfAtMost, Rule::Pass, Rule::Conflict, Rule::Pass],
        [Rule::Pass, Rule::Conflict, Rule::Pass, Rule::Pass],
    ];

    pub fn opened(opening: i64) -> Option<State>
        ensures { result ≡ opened_of opening }
    {
        let balance = within(opening, Account::OPENING_LEAST, Account::OPENING_MOST)?;
        Some(State::Account(Account { balance }))
    }

    pub fn rule_of(row: usize, column: usize) -> Rule
        ensures { result ≡ entry table row column }
    {
        entry_of(&Account::TABLE, row, column)
    }
}
