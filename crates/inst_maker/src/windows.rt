//! The windows of a made strip.

ghost use Rattle.std.specs.Prelude.{◌≡◌, ◌<◌};
ghost use Rattle.inst_maker.specs.Made.{a_window, a_back_window};
ghost use Rattle.inst_maker.specs.declared.limits.TheConstants.{MAX_SIZE};

use crate::draws::Draws;
use crate::limits::MAX_SIZE;
use strip_model::Window;

const CLOSED: Window = Window {
    early: 1,
    late: 0,
    duration: 20,
};

// An open window of strip `i`.
#[tactic(auto, unfolding(crate::specs::Made::a_window))]
pub fn draw_window(draws: &mut Draws, i: u16) -> Window
    requires { i < MAX_SIZE }
    ensures window { result ≡ (a_window i draws.old).value }
    ensures state { draws.new ≡ (a_window i draws.old).state }
{
    let early = 100 * u32::from(i) + draws.below(40);
    let late = early + draws.below(60);
    let duration = 20 + draws.below(20);
    Window {
        early,
        late,
        duration,
    }
}

// The window of strip `i` in direction 1, open or closed.
#[tactic(auto, unfolding(crate::specs::Made::a_back_window))]
pub fn draw_back_window(draws: &mut Draws, i: u16) -> Window
    requires { i < MAX_SIZE }
    ensures window { result ≡ (a_back_window i draws.old).value }
    ensures state { draws.new ≡ (a_back_window i draws.old).state }
{
    if i % 4 >= 2 {
        draw_window(draws, i)
    } else {
        CLOSED
    }
}
