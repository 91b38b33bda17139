//! The labels of one side with their states: a list that keeps, of each label, its path, its state and its brief, and that
//! finds a label by its path. A history of a list, marks on it and rules for its states stand in the crates above.
#![tactic(auto)]

mod label_list;
mod path_index;
mod record;
mod room;
mod state;

pub use label_list::LabelList;
pub use state::State;

#[cfg(test)]
mod tests;
