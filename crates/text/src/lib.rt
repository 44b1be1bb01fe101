// Numbers and answers as bytes: a number read from a file, an answer printed as a line. Knows nothing of a file's lines.
#![tactic(auto)]

pub mod number;
pub mod print;
pub mod signed;
