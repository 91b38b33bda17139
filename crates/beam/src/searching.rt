//! Beam search over the labels of a side.

use crate::candidate::Candidate;
use crate::followers::Followers;
use crate::narrowing::Narrowing;
use crate::rank::{Order, Prospect};
use label::Side;
use std::alloc::{AllocError, Global};
use strip_model::Directed;

/// A path that gains more than the floor and has all its twins, and the empty path where none was found. From each length
/// of paths the candidates of greatest bound go on to the next.
pub(crate) fn best_path(
    alloc: Global,
    side: &Side,
    followers: &Followers,
    order: Order,
    floor: u64,
) -> Result<Vec<Directed>, AllocError> {
    let count = side.instance().strips().len();
    let mut path = Vec::new(alloc);
    let mut gain = floor;
    let mut level = first_level(alloc, side)?;
    for _ in 0..count {
        gain = keep_best(&level, &mut path, gain)?;
        level = next_level(alloc, followers, &level, order, gain)?;
    }
    Ok(path)
}

// The candidates of one directed strip.
fn first_level<'a>(alloc: Global, side: &'a Side) -> Result<Vec<Candidate<'a>>, AllocError> {
    let mut level = Vec::new(alloc);
    for strip in 0..side.instance().strips().len() {
        for direction in 0..2u16 {
            let x = Directed::of(strip as u16, direction);
            if let Some(candidate) = Candidate::first(alloc, side, x)? {
                level.push(candidate)?;
            }
        }
    }
    Ok(level)
}

// Writes the path of the best candidate that has all its twins over the path, where it gains more. The greater gain.
fn keep_best(
    level: &[Candidate<'_>],
    path: &mut Vec<Directed>,
    floor: u64,
) -> Result<u64, AllocError> {
    let mut gain = floor;
    for candidate in level {
        if candidate.gain > gain && candidate.is_whole() {
            gain = candidate.gain;
            path.clear();
            path.extend_from_slice(candidate.path())?;
        }
    }
    Ok(gain)
}

// The candidates with one more directed strip: those that come first of all whose bound is above the gain that is had, no more
// than the width.
fn next_level<'a>(
    alloc: Global,
    followers: &Followers,
    level: &[Candidate<'a>],
    order: Order,
    gain: u64,
) -> Result<Vec<Candidate<'a>>, AllocError> {
    let mut narrowing = Narrowing::new(alloc, gain);
    for place in 0..level.len() {
        take_in(followers, &level[place], place, order, &mut narrowing)?;
    }
    made(alloc, level, narrowing.into_prospects())
}

// Takes in those of one candidate, the one at this place.
fn take_in(
    followers: &Followers,
    candidate: &Candidate<'_>,
    place: usize,
    order: Order,
    narrowing: &mut Narrowing,
) -> Result<(), AllocError> {
    for x in candidate.reach().iter() {
        // No bound is above that of the shorter one.
        if candidate.bound <= narrowing.floor() {
            break;
        }
        let next = Directed(x);
        if let Some(outlook) = candidate.outlook(followers, next, narrowing.floor()) {
            narrowing.take_in(Prospect::of(outlook, order, place, next))?;
        }
    }
    Ok(())
}

// The candidates that these prospects tell of, in their order.
fn made<'a>(
    alloc: Global,
    level: &[Candidate<'a>],
    prospects: Vec<Prospect>,
) -> Result<Vec<Candidate<'a>>, AllocError> {
    let mut next = Vec::with_capacity(alloc, prospects.len())?;
    for prospect in prospects {
        if let Some(parent) = level.get(prospect.place()) {
            if let Some(candidate) = parent.next(alloc, prospect.next())? {
                next.push(candidate)?;
            }
        }
    }
    Ok(next)
}
