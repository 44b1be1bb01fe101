// The account: which operations it takes, what each does, the results that each allows and its classes of answer.
#![tactic(auto)]

ghost use Rattle.std.specs.Prelude.{◌≡◌};
ghost use Rattle.kinds.specs.Range.{in_range};
ghost use Rattle.kinds.specs.Account.{amount_least, amount_most, decode_of, step_of, Room, shape_of, class_of};

use kinds::range::within;
use kinds::{Account, AccountOperation, Class, Operation, Outcome, Shape, State, Stepped};

pub fn decode(operation: u32, argument: i64) -> Option<Operation>
    ensures { result ≡ decode_of operation argument }
{
    let decoded = match operation {
        Account::BALANCE if argument == Account::NO_ARGUMENT => AccountOperation::Balance,
        Account::DEPOSIT => AccountOperation::Deposit(amount(argument)?),
        Account::WITHDRAW => AccountOperation::Withdraw(amount(argument)?),
        _ => return None,
    };
    Some(Operation::Account(decoded))
}

fn amount(argument: i64) -> Option<u32>
    ensures { result ≡ in_range argument amount_least amount_most Some None }
{
    within(argument, Account::AMOUNT_LEAST, Account::AMOUNT_MOST)
}

pub fn step(account: Account, operation: AccountOperation) -> Stepped
    requires { Room account operation }
    ensures { result ≡ step_of account operation }
{
    let balance = account.balance;
    let (balance, outcome) = match operation {
        AccountOperation::Balance => (balance, Outcome::Value(i64::from(balance))),
        AccountOperation::Deposit(n) => (balance + n, Outcome::Ok),
        AccountOperation::Withdraw(n) if n <= balance => (balance - n, Outcome::Ok),
        AccountOperation::Withdraw(_) => (balance, Outcome::Fail),
    };
    Stepped {
        state: State::Account(Account { balance }),
        outcome,
    }
}

pub fn shape_of(operation: AccountOperation) -> Shape
    ensures { result ≡ shape_of operation }
{
    match operation {
        AccountOperation::Balance => Shape::Between(Account::ANSWER_LEAST, Account::ANSWER_MOST),
        AccountOperation::Deposit(_) => Shape::Done,
        AccountOperation::Withdraw(_) => Shape::DoneOrFailed,
    }
}

pub fn class_of(operation: AccountOperation, outcome: Outcome) -> Option<Class>
    ensures { result ≡ class_of operation outcome }
{
    let (row, key) = match (operation, outcome) {
        (AccountOperation::Balance, Outcome::Value(v)) => (Account::BALANCE_ROW, v),
        (AccountOperation::Deposit(n), Outcome::Ok) => (Account::DEPOSIT_ROW, i64::from(n)),
        (AccountOperation::Withdraw(n), Outcome::Ok) => (Account::DRAWN_ROW, i64::from(n)),
        (AccountOperation::Withdraw(n), Outcome::Fail) => (Account::SHORT_ROW, i64::from(n)),
        _ => return None,
    };
    Some(Class { row, key })
}
