//! What comes first in a beam.

use crate::outlook::Outlook;
use strip_model::Directed;
use strip_set::StripSet;

/// How candidates of equal bound are ordered.
#[derive(Clone, Copy)]
pub(crate) enum Order {
    /// The one that starts its last acquisition earlier comes first.
    ByStart,
    /// The one that ends its last acquisition earlier comes first.
    ByEnd,
}

/// A candidate that isn't made yet, with what ranks it among those of its length.
#[derive(Clone, Copy)]
pub(crate) struct Prospect {
    rank: Rank,
    // The strips of its path.
    visited: StripSet,
}

// By its bound, then by how early it is, then by its place. The lesser comes first.
#[derive(Clone, Copy, PartialEq, Eq, PartialOrd, Ord)]
struct Rank {
    // By how much its bound falls short of the greatest number.
    lack: u64,
    time: u64,
    // Which candidate of the length before it goes on, by place.
    place: usize,
    // The directed strip that comes next.
    next: Directed,
}

impl Prospect {
    /// The candidate at this place with `next` after its last, ranked in this order.
    pub(crate) fn of(outlook: Outlook, order: Order, place: usize, next: Directed) -> Prospect {
        let time = match order {
            Order::ByStart => outlook.start,
            Order::ByEnd => outlook.end,
        };
        Prospect {
            rank: Rank {
                lack: u64::MAX - outlook.bound,
                time,
                place,
                next,
            },
            visited: outlook.visited,
        }
    }

    /// Whether it comes before another.
    pub(crate) fn comes_before(&self, other: &Prospect) -> bool {
        self.rank < other.rank
    }

    /// Whether another has the same strips and the same last directed strip.
    pub(crate) fn is_like(&self, other: &Prospect) -> bool {
        self.visited == other.visited && self.rank.next == other.rank.next
    }

    /// Its bound, in twentieths.
    pub(crate) fn bound(&self) -> u64 {
        u64::MAX - self.rank.lack
    }

    /// The place of the candidate that goes on.
    pub(crate) fn place(&self) -> usize {
        self.rank.place
    }

    /// The directed strip that comes next.
    pub(crate) fn next(&self) -> Directed {
        self.rank.next
    }
}
