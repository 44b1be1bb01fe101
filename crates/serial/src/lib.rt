// The serial objects of document 01 and requests Q-1 to Q-3: what each kind takes, what an operation does to a state and answers, and which answers conflict.
// The definitions of all this, and what is proved of them, are in `kinds`. A kind's own part is in its own crate; here the kinds are told apart.
#![tactic(auto)]

ghost use Rattle.std.specs.Prelude.{◌≡◌};
ghost use Rattle.kinds.specs.Kinds.{kind_of, opened_of, start_of, decode_of, step_of, Room, shape_of, recall_of, class_of, table_of, conflict_of};
ghost use Rattle.kinds.specs.Table.{entry};

use kinds::{
    Account, Answered, Bin, Class, Counter, Kind, Operation, Outcome, Register, Rule, Shape, State,
    Stepped,
};

#[tactic(auto, unfolding(kinds::specs::Kinds::kind_of))]
pub fn kind_of(letter: u8) -> Kind
    ensures { result ≡ kind_of letter }
{
    match letter {
        b'A' => Kind::Account,
        b'R' => Kind::Register,
        b'K' => Kind::Counter,
        b'S' => Kind::Bin,
        _ => Kind::Unknown,
    }
}

pub fn opened(kind: Kind, opening: i64) -> Option<State>
    ensures { result ≡ opened_of kind opening }
{
    match kind {
        Kind::Account => Account::opened(opening),
        Kind::Register => Register::opened(opening),
        Kind::Counter => Counter::opened(opening),
        Kind::Bin => Bin::opened(opening),
        Kind::Unknown => None,
    }
}

// The state that an object opens with; one that does not open counts as an account of 0.
pub fn opened_state(kind: Kind, opening: i64) -> State
    ensures { result ≡ start_of (opened_of kind opening) }
{
    opened(kind, opening).unwrap_or(State::Account(Account { balance: 0 }))
}

pub fn decode(kind: Kind, operation: u32, argument: i64) -> Option<Operation>
    ensures { result ≡ decode_of kind operation argument }
{
    match kind {
        Kind::Account => account::decode(operation, argument),
        Kind::Register => register::decode(operation, argument),
        Kind::Counter => counter::decode(operation, argument),
        Kind::Bin => bin::decode(operation, argument),
        Kind::Unknown => None,
    }
}

pub fn step(state: State, operation: Operation) -> Stepped
    requires { Room state operation }
    ensures { result ≡ step_of state operation }
{
    match (state, operation) {
        (State::Account(account), Operation::Account(o)) => account::step(account, o),
        (State::Register(register), Operation::Register(o)) => register::step(register, o),
        (State::Counter(counter), Operation::Counter(o)) => counter::step(counter, o),
        (State::Bin(bin), Operation::Bin(o)) => bin::step(bin, o),
        // An operation of another kind fails and changes nothing.
        _ => Stepped {
            state,
            outcome: Outcome::Fail,
        },
    }
}

fn shape_of(operation: Operation) -> Shape
    ensures { result ≡ shape_of operation }
{
    match operation {
        Operation::Account(o) => account::shape_of(o),
        Operation::Register(o) => register::shape_of(o),
        Operation::Counter(o) => counter::shape_of(o),
        Operation::Bin(o) => bin::shape_of(o),
    }
}

pub fn recall(operation: Operation, a: u32, b: i64) -> Option<Outcome>
    ensures { result ≡ recall_of operation a b }
{
    shape_of(operation).recall(a, b)
}

fn class_of(kind: Kind, answered: Answered) -> Option<Class>
    ensures { result ≡ class_of kind answered.operation answered.outcome }
{
    let Answered { operation, outcome } = answered;
    match (kind, operation) {
        (Kind::Account, Operation::Account(o)) => account::class_of(o, outcome),
        (Kind::Register, Operation::Register(o)) => register::class_of(o, outcome),
        (Kind::Counter, Operation::Counter(o)) => counter::class_of(o, outcome),
        (Kind::Bin, Operation::Bin(o)) => bin::class_of(o, outcome),
        _ => None,
    }
}

#[tactic(auto, unfolding(kinds::specs::Table::entry))]
fn rule_of(kind: Kind, row: usize, column: usize) -> Rule
    ensures { result ≡ entry (table_of kind) row column }
{
    match kind {
        Kind::Account => Account::rule_of(row, column),
        Kind::Register => Register::rule_of(row, column),
        Kind::Counter => Counter::rule_of(row, column),
        Kind::Bin => Bin::rule_of(row, column),
        Kind::Unknown => Rule::Conflict,
    }
}

// Whether two answers on an object of the kind conflict. What has no class, such as an operation of another kind, conflicts with everything.
pub fn conflicts(kind: Kind, asking: Answered, held: Answered) -> bool
    ensures { result ≡ conflict_of kind asking held }
{
    let (Some(p), Some(q)) = (class_of(kind, asking), class_of(kind, held)) else {
        return true;
    };
    rule_of(kind, p.row, q.row).judge(p.key, q.key)
}
