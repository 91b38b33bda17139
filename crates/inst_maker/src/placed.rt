//! The strips of a made instance, and where they lie.

ghost use Rattle.std.specs.Prelude.{◌≡◌, ◌<◌, ◌≤◌, map, IfOk};
ghost use Rattle.inst_maker.specs.Draws.{in_order};
ghost use Rattle.inst_maker.specs.Made.{a_placed_strip, twin_of};
ghost use Rattle.inst_maker.specs.declared.limits.TheConstants.{MAX_SIZE};

use crate::draws::Draws;
use crate::limits::MAX_SIZE;
use crate::windows::{draw_back_window, draw_window};
use std::alloc::{AllocError, Global};
use strip_model::Strip;

// A strip with its offset, in ticks: the manoeuvre between two strips takes longer by the difference of their offsets.
#[derive(Clone, Copy)]
pub struct Placed {
    pub strip: Strip,
    pub offset: u16,
}

// All strips, one after another.
#[tactic(auto, using(crate::proofs::InOrder::steps))]
pub fn draw_placed_strips(
    alloc: Global,
    draws: &mut Draws,
    size: u16,
) -> Result<Vec<Placed>, AllocError>
    requires { size ≤ MAX_SIZE }
    ensures { IfOk result (λ placed.
        placed.items ≡ (in_order (a_placed_strip size) size draws.old).value) }
{
    let mut placed = Vec::with_capacity(alloc, usize::from(size))?;
    for i in 0..size {
        placed.push(draw_placed_strip(draws, size, i))?;
    }
    Ok(placed)
}

// Strip `i`.
#[tactic(auto, unfolding(crate::specs::Made::a_placed_strip))]
fn draw_placed_strip(draws: &mut Draws, size: u16, i: u16) -> Placed
    requires among { i < size }
    requires few { size ≤ MAX_SIZE }
    ensures placed { result ≡ (a_placed_strip size i draws.old).value }
    ensures state { draws.new ≡ (a_placed_strip size i draws.old).state }
{
    let area = 1 + draws.below(100);
    let offset = draws.below(51) as u16;
    let forth = draw_window(draws, i);
    let back = draw_back_window(draws, i);
    let strip = Strip {
        request: i / 4,
        twin: twin_of(size, i),
        area,
        windows: [forth, back],
    };
    Placed { strip, offset }
}

// The strips without their offsets.
pub fn strips_of(alloc: Global, placed: &[Placed]) -> Result<Vec<Strip>, AllocError>
    ensures { IfOk result (λ strips. strips.items ≡ map (λ p. p.strip) placed.now) }
{
    placed.iter().map(|p| p.strip).collect(alloc)
}

// The twin of strip `i`, if it has one.
#[tactic(auto, unfolding(crate::specs::Made::twin_of))]
fn twin_of(size: u16, i: u16) -> Option<u16>
    requires among { i < size }
    requires few { size ≤ MAX_SIZE }
    ensures { result ≡ twin_of size i }
{
    match i % 4 {
        2 if i + 1 < size => Some(i + 1),
        3 => Some(i - 1),
        _ => None,
    }
}
