//! What a partial sequence that isn't made yet promises.

ghost use Rattle.std.specs.Prelude.{◌<◌, length};
ghost use Rattle.strip_model.specs.Directed.{strip_of};

use label::Side;
use strip_model::{Instance, Strip};
use strip_set::StripSet;

/// What ranks a candidate that isn't made yet.
#[derive(Clone, Copy)]
pub(crate) struct Outlook {
    /// The start of its last acquisition, in ticks from the side's end.
    pub(crate) start: u64,
    /// When its last acquisition is over, in ticks from the side's end.
    pub(crate) end: u64,
    /// What it gains at most with all that may still come, in twentieths.
    pub(crate) bound: u64,
    /// The strips of its path.
    pub(crate) visited: StripSet,
}

/// What is left of a bound, in twentieths, when of the strips that it counts these are lost. Where that is no more than the
/// floor, it need not be exact.
pub(crate) fn bound_without(
    side: &Side,
    bound: u64,
    counted: StripSet,
    lost: StripSet,
    floor: u64,
) -> u64 {
    let mut left = bound;
    let mut rest = counted;
    for strip in lost.iter() {
        if left <= floor {
            break;
        }
        left = left.saturating_sub(worth(side, rest, strip));
        rest = rest_without(side.instance(), rest, strip);
    }
    left
}

// By how much the strips of a set gain more with this one of them, in twentieths.
fn worth(side: &Side, set: StripSet, strip: u16) -> u64 {
    let instance = side.instance();
    let Some(lost) = instance.strips().get(usize::from(strip)) else {
        return 0;
    };
    let own = set.meet(side.strips_of(lost.request));
    let area = area_of(instance.strips(), own).min(instance.area_of(lost.request));
    let less = area.saturating_sub(u64::from(lost.area));
    instance
        .share(lost.request, area)
        .saturating_sub(instance.share(lost.request, less))
}

// The set without a strip.
fn rest_without(instance: &Instance, set: StripSet, strip: u16) -> StripSet {
    if usize::from(strip) < instance.strips().len() {
        set.without(strip)
    } else {
        set
    }
}

// The area of the strips of a set.
fn area_of(strips: &[Strip], set: StripSet) -> u64 {
    let mut area = 0u64;
    for strip in set.iter() {
        if let Some(strip) = strips.get(usize::from(strip)) {
            area = area.saturating_add(u64::from(strip.area));
        }
    }
    area
}
