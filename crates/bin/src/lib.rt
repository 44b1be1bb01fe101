// The bin of serial-numbered parts: which operations it takes, what each does, the results that each allows and its classes of answer.
#![tactic(auto)]

ghost use Rattle.std.specs.Prelude.{◌≡◌, ◌≤◌};
ghost use Rattle.kinds.specs.Bin.{part_most, decode_of, is_in, step_of, Room, shape_of, class_of};

use kinds::range::within;
use kinds::{Bin, BinOperation, Class, Operation, Outcome, Shape, State, Stepped};

pub fn decode(operation: u32, argument: i64) -> Option<Operation>
    ensures { result ≡ decode_of operation argument }
{
    let part = within(argument, Bin::PART_LEAST, Bin::PART_MOST)?;
    let decoded = match operation {
        Bin::PUT => BinOperation::Put(part),
        Bin::TAKE => BinOperation::Take(part),
        Bin::LOOK => BinOperation::Look(part),
        _ => return None,
    };
    Some(Operation::Bin(decoded))
}

// A shift by the part's number leaves the part's digit at the end.
fn is_in(bin: Bin, part: u32) -> bool
    requires { part ≤ part_most }
    ensures { result ≡ is_in bin.parts part }
{
    (bin.parts >> part) % 2 == 1
}

#[tactic(auto, using(crate::proofs::Powers::put_in_fits))]
pub fn step(bin: Bin, operation: BinOperation) -> Stepped
    requires { Room operation }
    ensures { result ≡ step_of bin operation }
{
    let parts = bin.parts;
    let (parts, outcome) = match operation {
        BinOperation::Put(part) if is_in(bin, part) => (parts, Outcome::Fail),
        BinOperation::Put(part) => (parts + (1 << part), Outcome::Ok),
        BinOperation::Take(part) if is_in(bin, part) => (parts - (1 << part), Outcome::Ok),
        BinOperation::Take(_) => (parts, Outcome::Fail),
        BinOperation::Look(part) if is_in(bin, part) => (parts, Outcome::Value(Bin::IN)),
        BinOperation::Look(_) => (parts, Outcome::Value(Bin::OUT)),
    };
    Stepped {
        state: State::Bin(Bin { parts }),
        outcome,
    }
}

pub fn shape_of(operation: BinOperation) -> Shape
    ensures { result ≡ shape_of operation }
{
    match operation {
        BinOperation::Put(_) | BinOperation::Take(_) => Shape::DoneOrFailed,
        BinOperation::Look(_) => Shape::Between(Bin::OUT, Bin::IN),
    }
}

pub fn class_of(operation: BinOperation, outcome: Outcome) -> Option<Class>
    ensures { result ≡ class_of operation outcome }
{
    let (row, part) = match (operation, outcome) {
        (BinOperation::Put(part), Outcome::Ok) => (Bin::PUT_ROW, part),
        (BinOperation::Put(part), Outcome::Fail) => (Bin::FOUND_ROW, part),
        (BinOperation::Take(part), Outcome::Ok) => (Bin::TAKEN_ROW, part),
        (BinOperation::Take(part), Outcome::Fail) => (Bin::MISSING_ROW, part),
        (BinOperation::Look(part), Outcome::Value(Bin::IN)) => (Bin::FOUND_ROW, part),
        (BinOperation::Look(part), Outcome::Value(Bin::OUT)) => (Bin::MISSING_ROW, part),
        _ => return None,
    };
    Some(Class {
        row,
        key: i64::from(part),
    })
}
