//! Tests of what threads share: the turn lock, the greatest offered value, the drawn numbers. They stand apart from the crates
//! that they try, since a crate with tests is proved twice. It has no code of its own.
#![tactic(auto)]

#[cfg(test)]
mod tests;
