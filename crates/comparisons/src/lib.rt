//! Tests that cross crates: what labels, dominance sets, joins and logs do, beside plain programs over whole paths. It has no
//! code of its own.
#![tactic(auto)]

#[cfg(test)]
mod tests;
