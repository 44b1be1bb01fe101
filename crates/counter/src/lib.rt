// The counter: which operations it takes, what each does, the results that each allows and its classes of answer.
#![tactic(auto)]

ghost use Rattle.std.specs.Prelude.{◌≡◌};
ghost use Rattle.kinds.specs.Range.{either_side};
ghost use Rattle.kinds.specs.Counter.{adjustment_most, decode_of, step_of, Room, shape_of, class_of};

use kinds::range::within_signed;
use kinds::{Class, Counter, CounterOperation, Operation, Outcome, Shape, State, Stepped};

pub fn decode(operation: u32, argument: i64) -> Option<Operation>
    ensures { result ≡ decode_of operation argument }
{
    let decoded = match operation {
        Counter::ADJUST => CounterOperation::Adjust(adjustment(argument)?),
        Counter::COUNT if argument == Counter::NO_ARGUMENT => CounterOperation::Count,
        _ => return None,
    };
    Some(Operation::Counter(decoded))
}

fn adjustment(argument: i64) -> Option<i32>
    ensures { result ≡ either_side argument adjustment_most Some None }
{
    within_signed(
        argument,
        Counter::ADJUSTMENT_LEAST,
        Counter::ADJUSTMENT_MOST,
    )
}

pub fn step(counter: Counter, operation: CounterOperation) -> Stepped
    requires { Room counter operation }
    ensures { result ≡ step_of counter operation }
{
    let count = counter.count;
    let (count, outcome) = match operation {
        CounterOperation::Adjust(n) => (count + n, Outcome::Ok),
        CounterOperation::Count => (count, Outcome::Value(i64::from(count))),
    };
    Stepped {
        state: State::Counter(Counter { count }),
        outcome,
    }
}

pub fn shape_of(operation: CounterOperation) -> Shape
    ensures { result ≡ shape_of operation }
{
    match operation {
        CounterOperation::Adjust(_) => Shape::Done,
        CounterOperation::Count => Shape::Between(Counter::ANSWER_LEAST, Counter::ANSWER_MOST),
    }
}

pub fn class_of(operation: CounterOperation, outcome: Outcome) -> Option<Class>
    ensures { result ≡ class_of operation outcome }
{
    let (row, key) = match (operation, outcome) {
        (CounterOperation::Adjust(n), Outcome::Ok) => (Counter::ADJUST_ROW, i64::from(n)),
        (CounterOperation::Count, Outcome::Value(_)) => (Counter::COUNT_ROW, Counter::COUNT_KEY),
        _ => return None,
    };
    Some(Class { row, key })
}
