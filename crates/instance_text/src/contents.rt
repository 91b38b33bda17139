//! What the lines of a text say, before the rules on twins and on the table are tested.

ghost use Rattle.std.specs.Prelude.{◌≡◌, ◌<◌, ◌≤◌, length, All, IfOk, IfErr, OnOk, None, Some};
ghost use Rattle.instance_text.specs.Reading.{orbit_of};
ghost use Rattle.instance_text.specs.Refusal.{IfRefused};
ghost use Rattle.instance_text.specs.Shape.{form_fault};
ghost use Rattle.instance_text.specs.Text.{IsInForm, Say};
ghost use Rattle.instance_text.specs.declared.limits.TheConstants.{MAX_TEXT_BYTES};

use crate::line_kinds::{count, heading, orbit};
use crate::reader::Reader;
use crate::refusal::TextRefusal;
use crate::runs::{requests, rows, strips};
use std::alloc::Global;
use strip_model::{MAX_REQUESTS, MAX_STRIPS, Request, Strip};

// The requests, the strips, and the entries of the table in rows.
#[derive(Drop)]
pub(crate) struct Contents {
    pub(crate) requests: Vec<Request>,
    pub(crate) strips: Vec<Strip>,
    pub(crate) entries: Vec<u32>,
}

// What a text says, if it has the form of one.
pub(crate) fn read_contents(alloc: Global, bytes: &[u8]) -> Result<Contents, TextRefusal>
    requires { length bytes.now ≤ MAX_TEXT_BYTES }
    ensures form { OnOk result (form_fault bytes.now ≡ None) }
    ensures said { IfOk result (λ c. Say bytes.now (orbit_of c)) }
    ensures limits { IfOk result (λ c. IsInForm (orbit_of c)) }
    ensures refused { IfErr result (λ e. IfRefused e (λ r. form_fault bytes.now ≡ Some r)) }
{
    let mut reader = Reader::new(bytes);
    orbit(&mut reader)?;
    let request_count = count(&mut reader, b"requests", MAX_REQUESTS as u32)?;
    let requests = requests(alloc, &mut reader, request_count)?;
    let strip_count = count(&mut reader, b"strips", MAX_STRIPS as u32)?;
    let strips = strips(alloc, &mut reader, request_count, strip_count)?;
    heading(&mut reader, b"manoeuvres")?;
    let entries = rows(alloc, &mut reader, 2 * strip_count)?;
    heading(&mut reader, b"end")?;
    reader.end()?;
    Ok(Contents {
        requests,
        strips,
        entries,
    })
}
