// The columns of a store, in four structs: its objects, its tree of transactions, its accesses, and its lists of work.
#![tactic(auto)]

pub mod accesses;
pub mod lists;
pub mod objects;
pub mod tree;
