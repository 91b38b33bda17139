//! The lines of strips and of rows. Their numbers aren't kept while a text is read: where a rule is broken, the line is
//! looked up again.

ghost use Rattle.std.specs.Prelude.{◌≡◌, ◌<◌, ◌≤◌, length};
ghost use Rattle.instance_text.specs.Refusal.{line_number};
ghost use Rattle.instance_text.specs.declared.limits.TheConstants.{MAX_TEXT_BYTES};

use crate::reader::Reader;

// The number of the line at place k among the lines that count, or 0 where there is none.
pub(crate) fn line_number(bytes: &[u8], k: usize) -> u32
    requires { length bytes.now ≤ MAX_TEXT_BYTES }
    ensures { result ≡ line_number bytes.now k }
{
    let mut reader = Reader::new(bytes);
    for _ in 0..k {
        let _ = reader.next_line();
    }
    match reader.next_line() {
        Some(line) => line.line(),
        None => 0,
    }
}
