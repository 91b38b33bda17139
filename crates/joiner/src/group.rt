use crate::entry::Entry;

/// The backward labels with one last directed strip, in rising order of when their last acquisition is over.
#[derive(Debug, Drop)]
pub(crate) struct Group {
    pub waiting: Vec<Entry>,
    /// The greatest of their values, in twentieths.
    pub greatest: u64,
}
