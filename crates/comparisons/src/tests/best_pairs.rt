//! The pairs of labels of the four strips that gain most together.

ghost use Rattle.std.specs.Prelude.{◌≤◌, length, All};
ghost use Rattle.joiner.specs.LabelJoins.{IsLabelAt};
ghost use Rattle.strip_model.specs.declared.end.End.TheVariants.{Forward, Backward};

use super::all_labels::all_labels_at;
use joiner::{Over, Pair, best_pair, best_pair_with, first_over};
use label::Label;
use std::alloc::{AllocError, Global};
use std::test::Fail;
use std::thread::Threads;
use strip_model::{End, Instance};
use worked_instances::four_strips;

const CUT: u32 = 12;

// The label 2 4 with the label 6: all that can be gained.
const BEST: Pair = Pair {
    forward: Some(4),
    backward: Some(0),
    gain: 2020,
};

// Whether this is the best pair over a floor, by one thread and by any number of workers.
fn is_best<R: Threads + Sync>(
    rt: &R,
    alloc: Global,
    instance: &Instance,
    forward: &[Label],
    backward: &[Label],
    floor: u64,
    best: Option<Pair>,
) -> Result<bool, AllocError>
    requires forward { All (IsLabelAt instance.now Forward) forward.now }
    requires backward { All (IsLabelAt instance.now Backward) backward.now }
    requires few_forward { length forward.now ≤ 1000 }
    requires few_backward { length backward.now ≤ 1000 }
{
    let alone = best_pair(alloc, instance, forward, backward, floor)?;
    let one = best_pair_with(rt, alloc, instance, forward, backward, floor, 1)?;
    let three = best_pair_with(rt, alloc, instance, forward, backward, floor, 3)?;
    let many = best_pair_with(rt, alloc, instance, forward, backward, floor, 32)?;
    Ok(alone == best && one == best && three == best && many == best)
}

// Tries a floor just below the greatest gain, and that gain.
fn try_labels<R: Threads + Sync>(
    rt: &R,
    alloc: Global,
    instance: &Instance,
    forward: &[Label],
    backward: &[Label],
) -> Result<bool, Fail>
    requires forward { All (IsLabelAt instance.now Forward) forward.now }
    requires backward { All (IsLabelAt instance.now Backward) backward.now }
{
    if forward.len() > 1000 || backward.len() > 1000 {
        return Err("there are many labels".into());
    }
    let over = first_over(alloc, instance, forward, backward, 2019)?;
    let none = first_over(alloc, instance, forward, backward, 2020)?;
    Ok(
        over == Some(Over { forward: Some(4) })
            && none.is_none()
            && is_best(rt, alloc, instance, forward, backward, 2019, Some(BEST))?
            && is_best(rt, alloc, instance, forward, backward, 2020, None)?,
    )
}

#[test]
fn the_pair_that_gains_most_is_found(rt: HostRuntime) -> Result<(), Fail> {
    let instance = four_strips(rt.alloc())?;
    let forward = all_labels_at(rt.alloc(), &instance, End::Forward, CUT)?;
    let backward = all_labels_at(rt.alloc(), &instance, End::Backward, CUT)?;
    assert!(rt; try_labels(&rt, rt.alloc(), &instance, &forward, &backward)?);
    Ok(())
}
