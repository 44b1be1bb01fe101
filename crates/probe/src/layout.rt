// How many bytes there are of what is read and written.
use columns::lists::PLACES;
use columns::objects::OBJECTS;
use columns::tree::ROWS;

// A store: three counts, and columns whose entries have 1, 2 or 8 bytes.
const STORE: usize = 3 * 8 + (1 + 8) * OBJECTS + (4 + 3 * 2 + 2 * 8) * ROWS + 2 * PLACES;

// A call: its letter in a run file, three numbers of 32 bits and an argument of 64.
pub(crate) const CALL: usize = 1 + 3 * 4 + 8;

// A store and a call on it.
pub(crate) const RECORD: usize = STORE + CALL;

// An answer: its code, a and b.
pub(crate) const ANSWER: usize = 4 + 4 + 8;

// An answer and a store.
pub(crate) const REPLY: usize = ANSWER + STORE;
