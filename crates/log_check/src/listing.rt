//! The third rule: each path that a side lists is a label path, and none stands twice.

ghost use Rattle.std.specs.Prelude.{◌≡◌, ◌<◌, ◌≤◌, ◌↔◌, ℕ, List, [], ◌∷◌, ◌++◌, length, get_or, true, IsTrue, IfOk};
ghost use Rattle.label.specs.declared.limits.TheConstants.{MAX_LISTED};
ghost use Rattle.label_list.specs.Labels.{IsAbsent, with_labels};
ghost use Rattle.label_list.specs.declared.state.State.TheVariants.{Waiting};
ghost use Rattle.log_check.specs.Listing.{IsListing};
ghost use Rattle.log_check.specs.Paths.{plain};
ghost use Rattle.strip_model.specs.LabelPath.{LabelPath};

use label::{Side, restore};
use label_list::LabelList;
use std::alloc::{AllocError, Global};
use strip_model::Directed;

/// What a side's list of paths is.
#[derive(Drop)]
pub(crate) enum Listing<'a> {
    /// Each path is a label path of the side and stands once; these are the labels, in their order.
    Right(LabelList<'a>),
    /// The number of the first path that is no label path or stands before it.
    WrongAt(usize),
}

/// Reads the paths of a side.
pub(crate) fn list_paths<'a>(
    alloc: Global,
    side: &'a Side,
    paths: &[Vec<Directed>],
) -> Result<Listing<'a>, AllocError>
    requires { length paths.now ≤ MAX_LISTED }
    ensures { IfOk result (IsListing side.entry.now (plain paths.now)) }
{
    let mut labels = LabelList::new(alloc, side);
    for k in 0..paths.len() {
        if !add_label(alloc, &mut labels, path_at(paths, k))? {
            return Ok(Listing::WrongAt(k));
        }
    }
    Ok(Listing::Right(labels))
}

// The path of a number.
fn path_at(paths: &[Vec<Directed>], k: usize) -> &[Directed]
    requires { k < length paths.now }
    ensures { result.now ≡ get_or (plain paths.now) k [] }
{
    &paths[k]
}

// Adds the label of a path, if it is a label path of the side and new there. Tells whether it is.
fn add_label(
    alloc: Global,
    labels: &mut LabelList<'_>,
    path: &[Directed],
) -> Result<bool, AllocError>
    requires { length labels.old.labels < MAX_LISTED }
    ensures right { IfOk result (λ right. IsTrue right ↔ (LabelPath labels.old.face path.now × IsAbsent labels.old.labels path.now)) }
    ensures added { IfOk result (λ right. right ≡ true
        → labels.new ≡ with_labels labels.old (labels.old.labels ++ record { path = path.now; state = Waiting } ∷ [])) }
{
    match restore(alloc, labels.side(), path)? {
        None => Ok(false),
        Some(label) => {
            if labels.id_of(path).is_some() {
                return Ok(false);
            }
            labels.add(&label)?;
            Ok(true)
        }
    }
}
