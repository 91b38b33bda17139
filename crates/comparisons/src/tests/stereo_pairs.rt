//! Small instances with stereo pairs, one for each number.

ghost use Rattle.std.specs.Prelude.{◌<◌};

use super::instances::instance_of;
use std::alloc::Global;
use std::test::Fail;
use strip_model::Instance;

// A number below `most` that looks drawn.
fn drawn(number: u16, strip: u16, salt: u16, most: u32) -> u32
    requires { 0 < most }
    ensures { result < most }
{
    (37 * u32::from(number) + 23 * u32::from(strip) + 11 * u32::from(salt)) % most
}

// The two ends and the duration of a window, as a text has them.
fn window(alloc: Global, number: u16, strip: u16, direction: u16) -> Result<String, Fail> {
    let early = drawn(number, strip, direction, 40);
    let late = early + drawn(strip, number, direction, 31);
    let duration = 3 + drawn(number, strip, 5, 4);
    Ok(format!(in alloc; "{early} {late} {duration}")?)
}

// The line of a strip, whose twin is `twin`.
fn strip_line(alloc: Global, number: u16, strip: u16, twin: &str) -> Result<String, Fail> {
    let area = 1 + drawn(number, strip, 9, 5);
    let request = strip / 2;
    let forth = window(alloc, number, strip, 0)?;
    let back = window(alloc, number, strip, 1)?;
    Ok(format!(in alloc; "s {request} {twin} {area} {forth} {back}\n")?)
}

// The lines of two stereo pairs.
fn strip_lines(alloc: Global, number: u16) -> Result<String, Fail> {
    let first = strip_line(alloc, number, 0, "1")?;
    let second = strip_line(alloc, number, 1, "0")?;
    let third = strip_line(alloc, number, 2, "3")?;
    let fourth = strip_line(alloc, number, 3, "2")?;
    Ok(format!(in alloc; "{first}{second}{third}{fourth}")?)
}

/// Two stereo pairs, each of a request of its own, whose windows overlap.
pub(crate) fn stereo_pairs(alloc: Global, number: u16) -> Result<Instance, Fail> {
    let strips = strip_lines(alloc, number)?;
    let text = format!(in alloc;
        "orbit 1\nrequests 2\nr 10\nr 7\nstrips 4\n{strips}manoeuvres\n{TIMES}end\n"
    )?;
    instance_of(alloc, &text)
}

/// Two stereo pairs whose windows touch exactly: each strip can start only when the one before it allows.
pub(crate) const TOUCHING_PAIRS: &str =
    "orbit 1\nrequests 2\nr 10\nr 7\nstrips 4\ns 0 1 4 0 0 5 1 0 5\ns 0 0 6 14 14 5 1 0 5\ns 1 3 3 7 7 5 1 0 5\n\
s 1 2 2 21 21 5 1 0 5\nmanoeuvres\n0 0 2 2 2 2 2 2\n0 0 2 2 2 2 2 2\n2 2 0 0 2 2 2 2\n2 2 0 0 2 2 2 2\n\
2 2 2 2 0 0 2 2\n2 2 2 2 0 0 2 2\n2 2 2 2 2 2 0 0\n2 2 2 2 2 2 0 0\nend\n";

// It takes two ticks from each strip to each other.
const TIMES: &str = "0 0 2 2 2 2 2 2\n0 0 2 2 2 2 2 2\n2 2 0 0 2 2 2 2\n2 2 0 0 2 2 2 2\n\
2 2 2 2 0 0 2 2\n2 2 2 2 0 0 2 2\n2 2 2 2 2 2 0 0\n2 2 2 2 2 2 0 0\n";
