//! The manoeuvre times of a made instance.

ghost use Rattle.std.specs.Prelude.{◌≡◌, ◌*◌, ◌<◌, ◌≤◌, length, map, IfOk};
ghost use Rattle.inst_maker.specs.Made.{in_rows, time_between};
ghost use Rattle.inst_maker.specs.declared.limits.TheConstants.{MAX_SIZE};
ghost use Rattle.strip_model.specs.Directed.{strip_of};

use crate::limits::MAX_SIZE;
use crate::placed::Placed;
use std::alloc::{AllocError, Global};
use strip_model::Directed;

// The manoeuvre times between the directed strips of these strips, in ticks and in rows.
#[tactic(auto, using(crate::proofs::Rows::row_steps))]
pub fn manoeuvre_times(alloc: Global, placed: &[Placed]) -> Result<Vec<u32>, AllocError>
    requires { length placed.now ≤ MAX_SIZE }
    ensures { IfOk result (λ times. let offsets = map (λ p. p.offset) placed.now in
        times.items ≡ in_rows (2 * length placed.now) (time_between offsets)) }
{
    let directed = 2 * placed.len();
    let mut times = Vec::with_capacity(alloc, directed * directed)?;
    for place in 0..directed * directed {
        let x = Directed((place / directed) as u16);
        let y = Directed((place % directed) as u16);
        times.push(time_between(placed, x, y))?;
    }
    Ok(times)
}

// The manoeuvre time from `x` to `y`.
#[tactic(auto, unfolding(crate::specs::Made::time_between))]
fn time_between(placed: &[Placed], x: Directed, y: Directed) -> u32
    requires from { strip_of x < length placed.now }
    requires to { strip_of y < length placed.now }
    ensures { result ≡ time_between (map (λ p. p.offset) placed.now) x y }
{
    if x.strip() == y.strip() {
        return 0;
    }
    let from = placed[usize::from(x.strip())].offset;
    let to = placed[usize::from(y.strip())].offset;
    let turn = if x.direction() == y.direction() { 0 } else { 5 };
    10 + u32::from(from.abs_diff(to)) + turn
}
