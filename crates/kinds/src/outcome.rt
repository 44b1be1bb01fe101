// What an operation answers, and document 01's numbers for it, there and back.
ghost use Rattle.std.specs.Prelude.{◌≡◌};
ghost use Rattle.kinds.specs.Outcome.{numbers_of, with_value, without_value, recalled};

#[derive(Clone, Copy)]
pub enum Outcome {
    Ok,
    Fail,
    Value(i64),
}

// Document 01's a and b of an outcome.
#[derive(Clone, Copy)]
pub struct Numbers {
    pub a: u32,
    pub b: i64,
}

impl Numbers {
    // The values of a.
    pub const FAIL: u32 = 0;

    pub const OK: u32 = 1;

    pub const VALUE: u32 = 2;

    // The b of an outcome that has no value.
    pub const NO_VALUE: i64 = 0;
}

// The results that an operation allows.
#[derive(Clone, Copy)]
pub enum Shape {
    Done,
    DoneOrFailed,
    // A value from low to high.
    Between(i64, i64),
}

impl From<Outcome> for Numbers {
    ghost from_gives = { λ outcome numbers. numbers ≡ numbers_of outcome };

    fn from(outcome: Outcome) -> Numbers {
        let (a, b) = match outcome {
            Outcome::Ok => (Numbers::OK, Numbers::NO_VALUE),
            Outcome::Fail => (Numbers::FAIL, Numbers::NO_VALUE),
            Outcome::Value(v) => (Numbers::VALUE, v),
        };
        Numbers { a, b }
    }
}

// A value from low to high, as an outcome.
fn with_value(b: i64, low: i64, high: i64) -> Option<Outcome>
    ensures { result ≡ with_value b low high }
{
    (low..=high).contains(&b).then_some(Outcome::Value(b))
}

// An outcome that has no value: b is 0.
fn without_value(outcome: Outcome, b: i64) -> Option<Outcome>
    ensures { result ≡ without_value outcome b }
{
    (b == Numbers::NO_VALUE).then_some(outcome)
}

impl Shape {
    // The outcome with these numbers, where it is of this shape.
    pub fn recall(self, a: u32, b: i64) -> Option<Outcome>
        ensures { result ≡ recalled self a b }
    {
        match (self, a) {
            (Shape::Done | Shape::DoneOrFailed, Numbers::OK) => without_value(Outcome::Ok, b),
            (Shape::DoneOrFailed, Numbers::FAIL) => without_value(Outcome::Fail, b),
            (Shape::Between(low, high), Numbers::VALUE) => with_value(b, low, high),
            _ => None,
        }
    }
}
