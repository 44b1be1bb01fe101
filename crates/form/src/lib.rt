// The form rules of a store, tested over its columns. Each test is one pass over the rows in use and one over the rest.
#![tactic(auto)]

mod access;
mod climb;
mod lists;
mod objects;
mod rest;
mod tree;

pub use access::accesses_fine;
pub use lists::lists_fine;
pub use objects::{objects_fine, opens};
pub use tree::{COUNT_MOST, tree_fine};
