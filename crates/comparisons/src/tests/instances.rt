//! Small instances, as texts.

use instance_text::read;
use std::alloc::Global;
use std::test::Fail;
use strip_model::Instance;

/// Two twins and three strips of which a window is closed, which stay open for long, so that many orders are in time. How long a
/// manoeuvre takes depends on its order.
pub const OPEN_STRIPS: &str =
    "orbit 1\nrequests 2\nr 3\nr 2\nstrips 5\ns 0 1 40 0 90 7 0 60 5\ns 0 0 55 10 80 5 0 100 8\n\
s 0 - 30 20 60 9 1 0 5\ns 1 - 25 1 0 5 0 45 6\ns 1 - 70 30 70 5 1 0 5\nmanoeuvres\n0 0 6 7 2 9 5 2 4 3\n\
0 0 7 9 5 8 3 5 2 5\n8 6 0 0 4 8 4 3 4 9\n4 4 0 0 2 2 5 5 4 4\n6 7 5 5 0 0 4 5 8 6\n2 7 8 4 0 0 4 6 3 7\n\
6 2 7 3 6 7 0 0 6 9\n7 4 9 9 4 2 0 0 6 2\n7 8 2 8 7 8 2 9 0 0\n2 4 5 3 5 9 7 7 0 0\nend\n";

// No text is longer here.
const MOST_BYTES: usize = 10_000;

/// The instance that a text has.
pub(crate) fn instance_of(alloc: Global, text: &str) -> Result<Instance, Fail> {
    let bytes = text.as_bytes();
    if bytes.len() > MOST_BYTES {
        return Err("the text is long".into());
    }
    Ok(read(alloc, bytes)?)
}
