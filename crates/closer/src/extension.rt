//! One directed strip after a root or a label.

ghost use Rattle.std.specs.Prelude.{◌≡◌, ◌+◌, ◌<◌, ◌∷◌, ◌++◌, [], length, IfOk, MatchOption};
ghost use Rattle.closer.specs.Searching.{IsParent, Names, end_of, path_in};
ghost use Rattle.label.specs.Labels.{IsLabelOf};
ghost use Rattle.strip_model.specs.Directed.{strip_of};
ghost use Rattle.strip_model.specs.LabelPath.{LabelPath};
ghost use Rattle.strip_model.specs.Side.{face_of};

use crate::wait::Wait;
use label::{Label, extend, start};
use label_core::Core;
use std::alloc::{AllocError, Global};
use strip_model::Directed;

/// The label whose path is that of a root or a label with `y` after its last, and None where that is no label path. `parent` is
/// the label itself, and None for a root. It fails for want of memory alone.
pub(crate) fn extension(
    alloc: Global,
    core: &Core<'_>,
    now: Wait,
    parent: &Option<Label>,
    y: Directed,
) -> Result<Option<Label>, AllocError>
    requires parent { IsParent core.now now parent.now }
    requires exists { strip_of y < length core.now.instance.strips }
    ensures { IfOk result (λ o. MatchOption o
        (¬ LabelPath (face_of core.now.instance core.now.cut (end_of now)) (path_in core.now now ++ y ∷ []))
        (λ l. (l.path.items ≡ path_in core.now now ++ y ∷ []) × IsLabelOf (face_of core.now.instance core.now.cut (end_of now)) l)) }
{
    let side = core.side(now.id().end);
    match parent {
        None => start(alloc, side, y),
        Some(label) => extend(alloc, side, label, y),
    }
}

/// The label that waits, made again from its path, and None where it is a root. It fails for want of memory alone.
pub(crate) fn parent_of(core: &Core<'_>, now: Wait) -> Result<Option<Label>, AllocError>
    requires { Names core.now now }
    ensures { IfOk result (IsParent core.now now) }
{
    if now.rank == 0 {
        return Ok(None);
    }
    let label = core.restore(now.id())?;
    Ok(Some(label))
}
