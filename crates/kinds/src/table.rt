// A kind's conflict table: its classes of answer and its entries.
ghost use Rattle.std.specs.Prelude.{◌≡◌};
ghost use Rattle.kinds.specs.Table.{entry, judge};

// The row, and column, of an answer in the table of its kind, and the answer's key, which a rule may look at.
#[derive(Clone, Copy)]
pub struct Class {
    pub row: usize,
    pub key: i64,
}

// An entry of a kind's table: when two answers of these classes conflict.
#[derive(Clone, Copy)]
pub enum Rule {
    Pass,
    Conflict,
    // Unless their keys are equal.
    UnlessEqual,
    // If their keys are equal.
    IfEqual,
    // If the asking answer's key is at least the held one's.
    IfAtLeast,
    // The same, where the other of the two asks.
    IfAtMost,
}

impl Rule {
    // Whether two answers with these keys conflict.
    pub fn judge(self, asking: i64, held: i64) -> bool
        ensures { result ≡ judge self asking held }
    {
        match self {
            Rule::Pass => false,
            Rule::Conflict => true,
            Rule::UnlessEqual => asking != held,
            Rule::IfEqual => asking == held,
            Rule::IfAtLeast => held <= asking,
            Rule::IfAtMost => asking <= held,
        }
    }
}

// The rule at a row and a column of a table; outside the table there is only conflict.
#[tactic(auto, unfolding(crate::specs::Table::entry))]
pub(crate) fn entry_of<const N: usize>(table: &[[Rule; N]; N], row: usize, column: usize) -> Rule
    ensures { result ≡ entry table.now row column }
{
    let Some(rules) = table.get(row) else {
        return Rule::Conflict;
    };
    let Some(rule) = rules.get(column) else {
        return Rule::Conflict;
    };
    *rule
}
