//! Whether two names of labels, or their ends, are the same.

ghost use Rattle.std.specs.Prelude.{◌≡◌};
ghost use Rattle.label_core.specs.Ids.{same_id};
ghost use Rattle.proof_log.specs.Labels.{same_end};

use bucket::Id;
use strip_model::End;

/// Whether two ends are the same.
pub(crate) fn is_same_end(end: End, other: End) -> bool
    ensures { result ≡ same_end end other }
{
    match (end, other) {
        (End::Forward, End::Forward) | (End::Backward, End::Backward) => true,
        (End::Forward, End::Backward) | (End::Backward, End::Forward) => false,
    }
}

/// Whether two names are the same.
pub(crate) fn are_same(id: Id, other: Id) -> bool
    ensures { result ≡ same_id id other }
{
    is_same_end(id.end, other.end) && id.bucket == other.bucket && id.index == other.index
}
