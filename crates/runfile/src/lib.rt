// The run file: its lines and sections, and the check of a whole file. Knows no store.
#![tactic(auto)]

pub mod check;
pub mod line;
