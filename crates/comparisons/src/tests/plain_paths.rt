//! What is asked of labels, by plain forms over whole paths, in the instance's own time. Each call goes through the whole path
//! again. A path from the front has earliest starts, and one from the back goes back in time and has latest starts.

ghost use Rattle.std.specs.Prelude.{◌<◌, ◌↔◌, length, IsTrue};
ghost use Rattle.strip_model.specs.Directed.{strip_of};

use strip_model::{Directed, End, Instance, has, has_strip};

/// An acquisition with its start in the instance's own time, in ticks.
#[derive(Clone, Copy)]
pub struct Timed {
    pub at: Directed,
    pub start: i64,
}

/// Whether the strip of `x` exists.
pub fn exists(instance: &Instance, x: Directed) -> bool
    ensures { IsTrue result ↔ strip_of x < length instance.now.strips }
{
    usize::from(x.strip()) < instance.strips().len()
}

// When `x` starts as the first from an end: at its earliest from the front, and at its latest from the back.
fn start_of_first(instance: &Instance, end: End, x: Directed) -> i64
    requires { strip_of x < length instance.now.strips }
{
    let window = instance.window(x);
    match end {
        End::Forward => i64::from(window.early),
        End::Backward => i64::from(window.late),
    }
}

// How long it takes from the start of `x` until `y` can start after it, in ticks.
fn time_between(instance: &Instance, x: Directed, y: Directed) -> i64
    requires from { strip_of x < length instance.now.strips }
    requires to { strip_of y < length instance.now.strips }
{
    let duration = instance.window(x).duration;
    let manoeuvre = instance.manoeuvre(x, y);
    i64::from(duration).saturating_add(i64::from(manoeuvre))
}

// When `y` starts as the next one from an end: after `x` from the front, and before it from the back.
fn start_of_next(instance: &Instance, end: End, x: Directed, start: i64, y: Directed) -> i64
    requires last { strip_of x < length instance.now.strips }
    requires next { strip_of y < length instance.now.strips }
{
    let first = start_of_first(instance, end, y);
    match end {
        End::Forward => first.max(start.saturating_add(time_between(instance, x, y))),
        End::Backward => first.min(start.saturating_sub(time_between(instance, y, x))),
    }
}

// Whether `x` can start then.
fn is_in_window(instance: &Instance, x: Directed, start: i64) -> bool
    requires { strip_of x < length instance.now.strips }
{
    let window = instance.window(x);
    i64::from(window.early) <= start && start <= i64::from(window.late)
}

// When `y` starts where these are the last and the next, and None where it can't start then.
fn next_start(instance: &Instance, end: End, last: Option<Timed>, y: Directed) -> Option<i64> {
    if !exists(instance, y) {
        return None;
    }
    let start = match last {
        None => start_of_first(instance, end, y),
        Some(last) if exists(instance, last.at) => {
            start_of_next(instance, end, last.at, last.start, y)
        }
        Some(_) => return None,
    };
    if is_in_window(instance, y, start) {
        Some(start)
    } else {
        None
    }
}

/// The last acquisition of a path, and None where the path is empty or one of it can't start in its window.
pub fn last_of(instance: &Instance, end: End, path: &[Directed]) -> Option<Timed> {
    let mut last = None;
    for x in path {
        match next_start(instance, end, last, *x) {
            None => return None,
            Some(start) => last = Some(Timed { at: *x, start }),
        }
    }
    last
}

/// When an acquisition starts, in ticks from an end of the orbit: from the back the time that is left after it until the last
/// acquisition can be over.
pub fn ticks_from(instance: &Instance, end: End, a: Timed) -> i64 {
    if !exists(instance, a.at) {
        return 0;
    }
    let over = a
        .start
        .saturating_add(i64::from(instance.window(a.at).duration));
    match end {
        End::Forward => a.start,
        End::Backward => i64::from(instance.horizon()).saturating_sub(over),
    }
}

// The twin of a strip, if it has one.
fn twin_of(instance: &Instance, strip: u16) -> Option<u16> {
    match instance.strips().get(usize::from(strip)) {
        None => None,
        Some(strip) => strip.twin,
    }
}

// Whether the twin of `x`, where it stands in the path, stands there in the direction of `x`.
fn agrees_with(instance: &Instance, path: &[Directed], x: Directed) -> bool {
    let twin = twin_of(instance, x.strip());
    for y in path {
        if twin == Some(y.strip()) && y.direction() != x.direction() {
            return false;
        }
    }
    true
}

// Whether twins that both stand in a path have one direction.
fn has_twins_one_way(instance: &Instance, path: &[Directed]) -> bool {
    for x in path {
        if !agrees_with(instance, path, *x) {
            return false;
        }
    }
    true
}

// Whether no strip stands in a path twice.
fn has_distinct_strips(path: &[Directed]) -> bool {
    for place in 0..path.len() {
        if has_strip(&path[..place], path[place].strip()) {
            return false;
        }
    }
    true
}

/// Whether a list of directed strips is a label path of this end with this cut, in ticks.
pub fn is_label_path(instance: &Instance, end: End, cut: u32, path: &[Directed]) -> bool {
    let Some(last) = last_of(instance, end, path) else {
        return false;
    };
    let within_cap = match end {
        End::Forward => last.start <= i64::from(cut),
        End::Backward => last.start > i64::from(cut),
    };
    within_cap && has_distinct_strips(path) && has_twins_one_way(instance, path)
}

/// Whether `y` is in the reach of a path.
pub fn is_reached(instance: &Instance, end: End, path: &[Directed], y: Directed) -> bool {
    let last = last_of(instance, end, path);
    last.is_some() && !has_strip(path, y.strip()) && next_start(instance, end, last, y).is_some()
}

/// Whether a direction of a strip is in the reach of a path.
pub fn is_strip_reached(instance: &Instance, end: End, path: &[Directed], strip: u16) -> bool {
    if strip >= 1 << 15 {
        return false;
    }
    is_reached(instance, end, path, Directed::of(strip, 0))
        || is_reached(instance, end, path, Directed::of(strip, 1))
}

/// Whether a path needs `z`: it lacks the strip of `z`, and has its twin in the direction of `z`.
pub fn is_needed(instance: &Instance, path: &[Directed], z: Directed) -> bool {
    match twin_of(instance, z.strip()) {
        Some(twin) if twin < 1 << 15 => {
            !has_strip(path, z.strip()) && has(path, Directed::of(twin, z.direction()))
        }
        _ => false,
    }
}

/// Whether `x` is open in a path: it stands there, and has a twin that doesn't.
pub fn is_open(instance: &Instance, path: &[Directed], x: Directed) -> bool {
    match twin_of(instance, x.strip()) {
        Some(twin) => has(path, x) && !has_strip(path, twin),
        None => false,
    }
}
