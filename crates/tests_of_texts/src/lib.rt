//! Tests of what is read and written: streams, plans and words. They stand apart from the crates that they try, since a crate
//! with tests is proved twice. It has no code of its own. Texts that the whole program reads are tried from outside.
#![tactic(auto)]

#[cfg(test)]
mod tests;
