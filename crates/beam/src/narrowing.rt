//! The narrowing of a beam.

ghost use Rattle.std.specs.Prelude.{◌<◌, ◌≤◌, length, IfSome};

use crate::rank::Prospect;
use std::alloc::{AllocError, Global};

// How many candidates of one length are kept.
const WIDTH: usize = 50;

/// Those that come first of the prospects of one length, no more than the width. Of prospects of the same strips and the same
/// last directed strip it keeps the first alone: what completes one of these mostly completes the others too.
#[derive(Drop)]
pub(crate) struct Narrowing {
    // The first first.
    kept: Vec<Prospect>,
    // No prospect of a bound up to this, in twentieths, is wanted.
    floor: u64,
}

impl Narrowing {
    /// None as yet, where a gain is had that bounds must exceed, in twentieths. It takes no memory.
    pub(crate) fn new(alloc: Global, gain: u64) -> Narrowing {
        Narrowing {
            kept: Vec::new(alloc),
            floor: gain,
        }
    }

    /// What a bound must exceed, in twentieths.
    pub(crate) fn floor(&self) -> u64 {
        self.floor
    }

    /// Takes a prospect in, if its bound is wanted and it comes before the one like it that is kept. Where there are too many
    /// then, the last goes. It fails for want of memory alone.
    pub(crate) fn take_in(&mut self, prospect: Prospect) -> Result<(), AllocError> {
        if prospect.bound() <= self.floor {
            return Ok(());
        }
        let place = place_for(&self.kept, &prospect);
        match place_like(&self.kept, &prospect) {
            None => {}
            Some(like) => {
                if like < place {
                    return Ok(());
                }
                let _ = self.kept.remove(like);
            }
        }
        self.put(place, prospect)
    }

    // Puts a prospect in at this place, or after the last where there is no such place.
    fn put(&mut self, place: usize, prospect: Prospect) -> Result<(), AllocError> {
        let place = place.min(self.kept.len());
        self.kept.insert(place, prospect)?;
        if self.kept.len() > WIDTH {
            let _ = self.kept.pop();
        }
        if self.kept.len() == WIDTH {
            self.raise_floor();
        }
        Ok(())
    }

    // Where the width is reached, a bound must be at least that of the one that comes last.
    fn raise_floor(&mut self) {
        if let Some(last) = self.kept.last() {
            self.floor = self.floor.max(last.bound().saturating_sub(1));
        }
    }

    /// Those that were kept, the first first.
    pub(crate) fn into_prospects(self) -> Vec<Prospect> {
        self.kept
    }
}

// The place of the first that comes after a prospect, and the number of all where none does.
fn place_for(kept: &[Prospect], prospect: &Prospect) -> usize
    ensures { result ≤ length kept.now }
{
    for k in 0..kept.len() {
        if prospect.comes_before(&kept[k]) {
            return k;
        }
    }
    kept.len()
}

// The place of one that is like a prospect, if there is one.
fn place_like(kept: &[Prospect], prospect: &Prospect) -> Option<usize>
    ensures { IfSome result (λ k. k < length kept.now) }
{
    for k in 0..kept.len() {
        if prospect.is_like(&kept[k]) {
            return Some(k);
        }
    }
    None
}
