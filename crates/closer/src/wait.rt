//! What waits to be extended.

ghost use Rattle.std.specs.Prelude.{◌≡◌, ◌<◌, ◌+◌};
ghost use Rattle.bucket.specs.declared.limits.TheConstants.{BUCKETS};
ghost use Rattle.closer.specs.Waiting.{id_of};

use bucket::{BUCKETS, Id};
use strip_model::End;

/// The root of a side or a label, which waits to be extended. The lesser comes first: roots before labels, and a label of
/// lesser last start before one of a greater.
#[derive(Clone, Copy, Debug, PartialEq, Eq, PartialOrd, Ord)]
pub(crate) struct Wait {
    /// 0 for a root; for a label its last start, in ticks from its side's end, and 1.
    pub(crate) rank: u32,
    /// The number of the label's bucket among those of both sides, the forward ones first.
    pub(crate) shelf: u8,
    /// The label's id in its bucket, and 0 for a root.
    pub(crate) index: u32,
}

impl Wait {
    /// The root of a side.
    pub(crate) fn root(end: End) -> Wait
        ensures rank { result.rank ≡ 0 }
        ensures end { (id_of result).end ≡ end }
    {
        Wait::label(
            Id {
                end,
                bucket: 0,
                index: 0,
            },
            0,
        )
    }

    /// A label, with its rank.
    pub(crate) fn label(id: Id, rank: u32) -> Wait
        requires { id.bucket < BUCKETS }
        ensures rank { result.rank ≡ rank }
        ensures id { id_of result ≡ id }
    {
        let first = match id.end {
            End::Forward => 0,
            End::Backward => BUCKETS as u8,
        };
        Wait {
            rank,
            shelf: first + id.bucket,
            index: id.index,
        }
    }

    /// The label's name; that of a root tells its side alone.
    pub(crate) fn id(self) -> Id
        ensures { result ≡ id_of self }
    {
        let buckets = BUCKETS as u8;
        Id {
            end: if self.shelf < buckets {
                End::Forward
            } else {
                End::Backward
            },
            bucket: self.shelf % buckets,
            index: self.index,
        }
    }
}
