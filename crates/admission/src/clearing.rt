//! Labels that are marked one after another.

ghost use Rattle.std.specs.Prelude.{ℕ, ◌%◌, ◌<◌, length, OnOk};
ghost use Rattle.admission.specs.Clearing.{AreRetirable, AreCuttable, Clears};
ghost use Rattle.admission.specs.Contests.{last_at, Thins};

use bucket::{Id, bucket_of};
use label_core::Core;
use std::alloc::AllocError;
use strip_model::{Directed, End};

// The label `by` retires those of its bucket that have these ids. It fails for want of memory alone; some are retired then.
pub(crate) fn retire_all(core: &mut Core<'_>, ids: &[u32], by: Id) -> Result<(), AllocError>
    requires { AreRetirable core.old by ids.now }
    ensures thins { Thins core.old core.new by.end (last_at core.old by) }
    ensures clears { OnOk result (Clears core.old core.new by.end (last_at core.old by) ids.now (length ids.now)) }
{
    for id in ids {
        core.retire(
            Id {
                end: by.end,
                bucket: by.bucket,
                index: *id,
            },
            by,
        )?;
    }
    Ok(())
}

// The labels with these ids, which end with `x`, are cut. It fails for want of memory alone; some are cut then.
pub(crate) fn cut_all(
    core: &mut Core<'_>,
    ids: &[u32],
    end: End,
    x: Directed,
) -> Result<(), AllocError>
    requires { AreCuttable core.old end x ids.now }
    ensures thins { Thins core.old core.new end x }
    ensures clears { OnOk result (Clears core.old core.new end x ids.now (length ids.now)) }
{
    for id in ids {
        core.cut(Id {
            end,
            bucket: bucket_of(x),
            index: *id,
        })?;
    }
    Ok(())
}
