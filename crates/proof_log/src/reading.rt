ghost use Rattle.std.specs.Prelude.{◌≡◌, ◌<◌, ◌^◌, ◌-◌, length, IfOk, IfErr, MatchResult};
ghost use Rattle.proof_log.specs.AnswerReading.{IsRead, IsUnread};
ghost use Rattle.proof_log.specs.AnswerRefusal.{AtStatus, IsRefusedAs};
ghost use Rattle.proof_log.specs.AnswerText.{IsLogText, AreSame};
ghost use Rattle.plan_check.specs.Reading.{IsLineBegun};

use crate::Log;
use crate::front::read_front;
use crate::labels::{read_backward, read_forward};
use crate::lines::{read_heading, read_number};
use crate::marks::read_marks;
use crate::refusal::{LogRefusal, cause_of};
use crate::unread::Unread;
use seq_io::StrictReader;
use std::alloc::Global;
use strip_model::MAX_HORIZON;

/// The log whose answer these bytes are. Refused is the first line that can't stand, counted from 1, with the cause of the
/// first token in it that can't. Where the text ends early, that is the number of its lines plus 1, and a last line without
/// LF can't stand. Memory is taken for what was read, and not for the number of labels that a line says.
pub fn read(alloc: Global, bytes: &[u8]) -> Result<Log, LogRefusal>
    requires { length bytes.now < 2 ^ 32 - 1 }
    ensures text { IfOk result (IsLogText bytes.now) }
    ensures every_text { (log : Log) → IsLogText bytes.now log
        → MatchResult result (λ read. AreSame read log) (λ refusal. refusal ≡ LogRefusal.Memory) }
    ensures refused { IfErr result (IsRefusedAs bytes.now) }
{
    let mut reader = StrictReader::new(bytes);
    match read_log(alloc, &mut reader) {
        Ok(log) => Ok(log),
        Err(Unread::Memory) => Err(LogRefusal::Memory),
        Err(Unread::Fault(fault)) => Err(LogRefusal::Refused {
            line: reader.line() as u32,
            cause: cause_of(fault),
        }),
    }
}

// Reads all of it. After a fault the reader stands in the line that can't stand.
fn read_log(alloc: Global, reader: &mut StrictReader<'_>) -> Result<Log, Unread>
    requires { IsLineBegun reader.old }
    ensures read { IfOk result (IsRead reader.old) }
    ensures unread { IfErr result (IsUnread AtStatus reader.old reader.new) }
{
    let front = read_front(alloc, reader)?;
    read_heading(reader, "log")?;
    let cut = read_number(reader, "cut", MAX_HORIZON as u64)?;
    let forward = read_forward(alloc, reader, front.labels)?;
    let backward = read_backward(alloc, reader, front.labels - forward.len())?;
    let marks = read_marks(alloc, reader)?;
    reader.text_end()?;
    Ok(Log {
        cut: cut as u32,
        gain: front.gain,
        plan: front.plan,
        forward,
        backward,
        marks,
    })
}
