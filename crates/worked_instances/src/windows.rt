//! The windows of the strips: each is open at one tick alone, or closed. An acquisition takes 5 ticks.

use strip_model::Window;

pub(crate) const CLOSED: Window = Window {
    early: 1,
    late: 0,
    duration: 5,
};

pub(crate) const AT_0: Window = Window {
    early: 0,
    late: 0,
    duration: 5,
};

pub(crate) const AT_3: Window = Window {
    early: 3,
    late: 3,
    duration: 5,
};

pub(crate) const AT_7: Window = Window {
    early: 7,
    late: 7,
    duration: 5,
};

pub(crate) const AT_10: Window = Window {
    early: 10,
    late: 10,
    duration: 5,
};

pub(crate) const AT_20: Window = Window {
    early: 20,
    late: 20,
    duration: 5,
};
