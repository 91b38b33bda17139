use crate::entry::Entry;

/// The entry of a forward label, with the label's bound in twentieths: no pair with the label gains more.
#[derive(Clone, Copy, Debug)]
pub(crate) struct Ranked {
    pub entry: Entry,
    pub bound: u64,
}
