//! What is only tested: that candidates rank as they do once they are made.

use super::*;
use crate::candidate::Candidate;
use crate::followers::Followers;
use label::Side;
use std::alloc::{AllocError, Global};
use std::test::Fail;
use strip_model::{Directed, End};
use worked_instances::four_strips;

// How many directed strips in the reach of a candidate give it another bound before they are put after its last than when
// they are there.
fn wrong_outlooks(
    alloc: Global,
    followers: &Followers,
    candidate: &Candidate<'_>,
) -> Result<u64, AllocError> {
    let mut wrong = 0u64;
    for x in candidate.reach().iter() {
        let told = match candidate.outlook(followers, Directed(x), 0) {
            Some(outlook) => outlook.bound,
            None => 0,
        };
        let is = match candidate.next(alloc, Directed(x))? {
            Some(longer) => longer.bound,
            None => 0,
        };
        if told != is {
            wrong = wrong.saturating_add(1);
        }
    }
    Ok(wrong)
}

// The same for the candidate of one directed strip and for all with one more, if there are such.
fn wrong_outlooks_from(
    alloc: Global,
    side: &Side,
    followers: &Followers,
    x: Directed,
) -> Result<u64, AllocError> {
    if usize::from(x.strip()) >= side.instance().strips().len() {
        return Ok(0);
    }
    let Some(candidate) = Candidate::first(alloc, side, x)? else {
        return Ok(0);
    };
    let mut wrong = wrong_outlooks(alloc, followers, &candidate)?;
    for y in candidate.reach().iter() {
        if let Some(longer) = candidate.next(alloc, Directed(y))? {
            wrong = wrong.saturating_add(wrong_outlooks(alloc, followers, &longer)?);
        }
    }
    Ok(wrong)
}

#[test]
fn a_bound_is_told_before_the_candidate_is_made(rt: HostRuntime) -> Result<(), Fail> {
    let alloc = rt.alloc();
    let instance = four_strips(alloc)?;
    let side = Side::new(alloc, &instance, End::Forward, u32::MAX)?;
    let followers = Followers::new(alloc, side.instance())?;
    for x in 0..8u16 {
        let wrong = wrong_outlooks_from(alloc, &side, &followers, Directed(x))?;
        assert_eq!(rt; wrong, 0, "{x}");
    }
    Ok(())
}
