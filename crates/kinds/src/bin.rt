// The bin of serial-numbered parts: its limits, its opening state, its operations and its conflict table.
ghost use Rattle.std.specs.Prelude.{◌≡◌};
ghost use Rattle.kinds.specs.Bin.{opened_of, table};
ghost use Rattle.kinds.specs.Table.{entry};

use crate::State;
use crate::range::within;
use crate::table::{Rule, entry_of};

// Its binary digits say which parts are in: that of 2 ^ i, whether part i is.
#[derive(Clone, Copy)]
pub struct Bin {
    pub parts: u32,
}

#[derive(Clone, Copy)]
pub enum BinOperation {
    Put(u32),
    Take(u32),
    Look(u32),
}

impl Bin {
    pub const OPENING_LEAST: u32 = 0;

    pub const OPENING_MOST: u32 = 4_294_967_295;

    // The numbers of its operations, as a call has them.
    pub const PUT: u32 = 8;

    pub const TAKE: u32 = 9;

    pub const LOOK: u32 = 10;

    pub const PART_LEAST: u32 = 0;

    pub const PART_MOST: u32 = 31;

    // What a look answers.
    pub const OUT: i64 = 0;

    pub const IN: i64 = 1;

    // The rows and columns of its table, numbers since any may be asked for: a part was put in or taken out, or found in or out and left there.
    pub const PUT_ROW: usize = 0;

    pub const TAKEN_ROW: usize = 1;

    pub const FOUND_ROW: usize = 2;

    pub const MISSING_ROW: usize = 3;

    const ROWS: usize = 4;

    const TABLE: [[Rule; Bin::ROWS]; Bin::ROWS] = [
        [Rule::IfEqual, Rule::Pass, Rule::Pass, Rule::IfEqual],
        [Rule::Pass, Rule::IfEqual, Rule::IfEqual, Rule::Pass],
        [Rule::Pass, Rule::IfEqual, Rule::Pass, Rule::Pass],
        [Rule::IfEqual, Rule::Pass, Rule::Pass, Rule::Pass],
    ];

    pub fn opened(opening: i64) -> Option<State>
        ensures { result ≡ opened_of opening }
    {
        let parts = within(opening, Bin::OPENING_LEAST, Bin::OPENING_MOST)?;
        Some(State::Bin(Bin { parts }))
    }

    pub fn rule_of(row: usize, column: usize) -> Rule
        ensures { result ≡ entry table row column }
    {
        entry_of(&Bin::TABLE, row, column)
    }
}
