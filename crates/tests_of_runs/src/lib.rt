//! Tests of the top calls over memory: what can't be tried from outside on the built program, as gates, faults in mid-stream and
//! boards of a caller. They stand apart from the sequencer, since a crate with tests is proved twice. It has no code of its own.
#![tactic(auto)]

#[cfg(test)]
mod tests;
