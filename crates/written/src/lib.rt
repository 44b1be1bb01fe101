// The run file as it is written and as it is read: definitions in specs/, their laws in proofs/. Types that `runfile` shares with them; no functions.
#![tactic(auto)]

// An object line: its kind's letter and its opening.
#[derive(Clone, Copy)]
pub struct Object {
    pub letter: u8,
    pub opening: i64,
}

// What a call line asks.
#[derive(Clone, Copy)]
pub enum Call {
    // N: the parent.
    Plain(u32),
    // U: parent, object, operation and argument.
    Access(u32, u32, u32, i64),
    // G, C and B: the transaction.
    Respond(u32),
    Commit(u32),
    Abort(u32),
}

// The start of a line, and its number in the file, from 1.
#[derive(Clone, Copy)]
pub struct Place {
    pub at: usize,
    pub line: u32,
}

// How many lines a section has after its count, and where the first one starts.
#[derive(Clone, Copy)]
pub struct Part {
    pub lines: u32,
    pub start: usize,
}

#[derive(Clone, Copy)]
pub struct Layout {
    pub objects: Part,
    pub calls: Part,
}

// Why a file is no run file: its first wrong or missing line, from 1; 0 for a file too long.
#[derive(Clone, Copy)]
pub struct WrongLine {
    pub line: u32,
}
