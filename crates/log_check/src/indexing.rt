//! The third rule on both sides.

ghost use Rattle.std.specs.Prelude.{IfOk};
ghost use Rattle.log_check.specs.Verdicts.{IsIndexing};

use crate::listed::Listed;
use crate::listing::{Listing, list_paths};
use crate::reading::Reading;
use std::alloc::{AllocError, Global};
use strip_model::End;

/// What the labels of a log are.
#[derive(Drop)]
pub(crate) enum Indexing<'a> {
    /// Each path is a label path of its side and stands once.
    Right(Listed<'a>),
    /// The place of the first path that is no label path or stands before it.
    WrongAt(u64),
}

/// Reads the labels of a log. It fails for want of memory alone.
pub(crate) fn index_labels<'a>(
    alloc: Global,
    reading: &'a Reading<'a>,
) -> Result<Indexing<'a>, AllocError>
    ensures { IfOk result (IsIndexing reading.entry.now) }
{
    let paths = reading.paths(End::Forward);
    match list_paths(alloc, reading.side(End::Forward), paths)? {
        Listing::WrongAt(k) => Ok(Indexing::WrongAt(k as u64 + 1)),
        Listing::Right(forward) => {
            let before = paths.len() as u64 + 1;
            let paths = reading.paths(End::Backward);
            match list_paths(alloc, reading.side(End::Backward), paths)? {
                Listing::WrongAt(k) => Ok(Indexing::WrongAt(before + k as u64 + 1)),
                Listing::Right(backward) => Ok(Indexing::Right(Listed::new(
                    reading, forward, backward,
                ))),
            }
        }
    }
}
