// The register: which operations it takes, what each does, the results that each allows and its classes of answer.
#![tactic(auto)]

ghost use Rattle.std.specs.Prelude.{◌≡◌};
ghost use Rattle.kinds.specs.Range.{in_range};
ghost use Rattle.kinds.specs.Register.{value_most, decode_of, step_of, shape_of, class_of};

use kinds::range::within;
use kinds::{Class, Operation, Outcome, Register, RegisterOperation, Shape, State, Stepped};

pub fn decode(operation: u32, argument: i64) -> Option<Operation>
    ensures { result ≡ decode_of operation argument }
{
    let decoded = match operation {
        Register::READ if argument == Register::NO_ARGUMENT => RegisterOperation::Read,
        Register::WRITE => RegisterOperation::Write(value(argument)?),
        _ => return None,
    };
    Some(Operation::Register(decoded))
}

fn value(argument: i64) -> Option<u32>
    ensures { result ≡ in_range argument 0 value_most Some None }
{
    within(argument, Register::VALUE_LEAST, Register::VALUE_MOST)
}

pub fn step(register: Register, operation: RegisterOperation) -> Stepped
    ensures { result ≡ step_of register operation }
{
    let (value, outcome) = match operation {
        RegisterOperation::Read => (register.value, Outcome::Value(i64::from(register.value))),
        RegisterOperation::Write(value) => (value, Outcome::Ok),
    };
    Stepped {
        state: State::Register(Register { value }),
        outcome,
    }
}

pub fn shape_of(operation: RegisterOperation) -> Shape
    ensures { result ≡ shape_of operation }
{
    match operation {
        RegisterOperation::Read => Shape::Between(
            i64::from(Register::VALUE_LEAST),
            i64::from(Register::VALUE_MOST),
        ),
        RegisterOperation::Write(_) => Shape::Done,
    }
}

pub fn class_of(operation: RegisterOperation, outcome: Outcome) -> Option<Class>
    ensures { result ≡ class_of operation outcome }
{
    let (row, key) = match (operation, outcome) {
        (RegisterOperation::Read, Outcome::Value(v)) => (Register::READ_ROW, v),
        (RegisterOperation::Write(n), Outcome::Ok) => (Register::WRITE_ROW, i64::from(n)),
        _ => return None,
    };
    Some(Class { row, key })
}
