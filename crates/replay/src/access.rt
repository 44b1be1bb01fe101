// The row of an access.
ghost use Rattle.std.specs.Prelude.{◌≡◌, ◌<◌};
ghost use Rattle.columns.specs.Column.{rows_most};
ghost use Rattle.replay.specs.Access.{asked_of, recorded_of, record_in};

use columns::accesses::Accesses;
use kinds::{Answered, Kind, Operation};

// What access x asks, of an object of the kind.
pub fn asked(accesses: &Accesses, kind: Kind, x: usize) -> Option<Operation>
    requires { x < rows_most }
    ensures { result ≡ asked_of kind accesses.now.operation accesses.now.argument x }
{
    serial::decode(kind, u32::from(accesses.operation[x]), accesses.argument[x])
}

// The answer on record of what was asked.
pub fn record_of(asked: Option<Operation>, outcome: u8, value: i64) -> Option<Answered>
    ensures { result ≡ recorded_of asked outcome value }
{
    let operation = asked?;
    let a = u32::from(outcome).checked_sub(1)?;
    let outcome = serial::recall(operation, a, value)?;
    Some(Answered { operation, outcome })
}

// The answer on record of access x, on an object of the kind.
pub fn record_at(accesses: &Accesses, kind: Kind, x: usize) -> Option<Answered>
    requires { x < rows_most }
    ensures { result ≡ record_in kind accesses.now.operation accesses.now.argument accesses.now.outcome accesses.now.value x }
{
    record_of(
        asked(accesses, kind, x),
        accesses.outcome[x],
        accesses.value[x],
    )
}
