// What each access asks of its object, and its answer, indexed by the transaction's number.
use crate::tree::ROWS;

#[derive(Clone, Copy)]
pub struct Accesses {
    pub object: [u8; ROWS],
    pub operation: [u8; ROWS],
    pub argument: [i64; ROWS],
    pub outcome: [u8; ROWS],
    pub value: [i64; ROWS],
}
