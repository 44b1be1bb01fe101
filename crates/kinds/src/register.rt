// The register: its limits, its opening state, its operations and its conflict table.
ghost use Rattle.std.specs.Prelude.{◌≡◌};
ghost use Rattle.kinds.specs.Register.{opened_of, table};
ghost use Rattle.kinds.specs.Table.{entry};

use crate::State;
use crate::range::within;
use crate::table::{Rule, entry_of};

#[derive(Clone, Copy)]
pub struct Register {
    pub value: u32,
}

#[derive(Clone, Copy)]
pub enum RegisterOperation {
    Read,
    Write(u32),
}

impl Register {
    // The numbers of its operations, as a call has them.
    pub const READ: u32 = 4;

    pub const WRITE: u32 = 5;

    pub const NO_ARGUMENT: i64 = 0;

    // What it opens with, what is written and what is read.
    pub const VALUE_LEAST: u32 = 0;

    pub const VALUE_MOST: u32 = 1_000_000_000;

    // The rows and columns of its table: numbers, since any may be asked for.
    pub const READ_ROW: usize = 0;

    pub const WRITE_ROW: usize = 1;

    const ROWS: usize = 2;

    const TABLE: [[Rule; Register::ROWS]; Register::ROWS] = [
        [Rule::Pass, Rule::UnlessEqual],
        [Rule::UnlessEqual, Rule::UnlessEqual],
    ];

    pub fn opened(opening: i64) -> Option<State>
        ensures { result ≡ opened_of opening }
    {
        let value = within(opening, Register::VALUE_LEAST, Register::VALUE_MOST)?;
        Some(State::Register(Register { value }))
    }

    pub fn rule_of(row: usize, column: usize) -> Rule
        ensures { result ≡ entry table row column }
    {
        entry_of(&Register::TABLE, row, column)
    }
}
