//! What a call is to write, and with which status it ends.

use crate::Status;

/// What a job answers: a status that writes, and the text to be written.
#[derive(Drop)]
pub(crate) struct Answer {
    pub(crate) status: Status,
    pub(crate) text: Vec<u8>,
}
