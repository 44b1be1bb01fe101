// The counter: its limits, its opening state, its operations and its conflict table.
ghost use Rattle.std.specs.Prelude.{◌≡◌};
ghost use Rattle.kinds.specs.Counter.{opened_of, table};
ghost use Rattle.kinds.specs.Table.{entry};

use crate::State;
use crate::range::within_signed;
use crate::table::{Rule, entry_of};

#[derive(Clone, Copy)]
pub struct Counter {
    pub count: i32,
}

#[derive(Clone, Copy)]
pub enum CounterOperation {
    Adjust(i32),
    Count,
}

impl Counter {
    pub const OPENING_LEAST: i32 = -1_000_000_000;

    pub const OPENING_MOST: i32 = 1_000_000_000;

    // The numbers of its operations, as a call has them.
    pub const ADJUST: u32 = 6;

    pub const COUNT: u32 = 7;

    pub const NO_ARGUMENT: i64 = 0;

    pub const ADJUSTMENT_LEAST: i32 = -1_000_000;

    pub const ADJUSTMENT_MOST: i32 = 1_000_000;

    // What a count answers: as far as the furthest opening and 1,024 adjustments of the largest size.
    pub const ANSWER_LEAST: i64 = -2_024_000_000;

    pub const ANSWER_MOST: i64 = 2_024_000_000;

    // The rows and columns of its table: numbers, since any may be asked for.
    pub const ADJUST_ROW: usize = 0;

    pub const COUNT_ROW: usize = 1;

    const ROWS: usize = 2;

    const TABLE: [[Rule; Counter::ROWS]; Counter::ROWS] = [
        [Rule::Pass, Rule::UnlessEqual],
        [Rule::UnlessEqual, Rule::Pass],
    ];

    // The key of an answer is what it adds: of an adjustment its argument, of a count nothing.
    pub const COUNT_KEY: i64 = 0;

    pub fn opened(opening: i64) -> Option<State>
        ensures { result ≡ opened_of opening }
    {
        let count = within_signed(opening, Counter::OPENING_LEAST, Counter::OPENING_MOST)?;
        Some(State::Counter(Counter { count }))
    }

    pub fn rule_of(row: usize, column: usize) -> Rule
        ensures { result ≡ entry table row column }
    {
        entry_of(&Counter::TABLE, row, column)
    }
}
