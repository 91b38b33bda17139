//! The eighth rule: no two that stand join for more than the gain that is written.

ghost use Rattle.std.specs.Prelude.{◌≡◌, ◌≤◌, length, IfOk};
ghost use Rattle.joiner.specs.Pairs.{place_of};
ghost use Rattle.log_check.specs.Faults.{Rule, IsTested};
ghost use Rattle.log_check.specs.Seats.{seat_at};

use crate::seated::Seated;
use crate::standing::Standing;
use joiner::first_over;
use std::alloc::{AllocError, Global};
use strip_model::End;

/// The first forward seat that stands and joins with a backward one for more than the gain that is written, or none. It fails
/// for want of memory alone.
pub(crate) fn first_join(alloc: Global, seated: &Seated<'_>) -> Result<Option<u64>, AllocError>
    ensures { IfOk result (IsTested seated.now.instance seated.now.log Rule.NoneJoinForMore) }
{
    let reading = seated.listed().reading();
    let forward = seated.at(End::Forward);
    let backward = seated.at(End::Backward);
    // For their clauses: each side has few labels.
    let _ = reading.paths(End::Forward);
    let _ = reading.paths(End::Backward);
    match first_over(
        alloc,
        reading.instance(),
        &forward.labels,
        &backward.labels,
        reading.log().gain,
    )? {
        None => Ok(None),
        Some(over) => Ok(Some(seat_of(forward, over.forward))),
    }
}

// The seat of a label, by its place in the list, or of the root.
fn seat_of(standing: &Standing, label: Option<u32>) -> u64
    requires { place_of label ≤ length standing.now.places.items }
    ensures { result ≡ seat_at standing.now.places.items (place_of label) }
{
    match label {
        None => 0,
        Some(i) => u64::from(standing.place(i as usize)) + 1,
    }
}
