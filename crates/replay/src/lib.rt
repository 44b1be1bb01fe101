// What an access is answered from: its row read, and the view replayed.
#![tactic(auto)]

pub mod access;
mod chain;
pub mod view;
mod write;
