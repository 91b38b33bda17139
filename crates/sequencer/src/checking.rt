//! What `check` answers to its input: whether a log proves its plan optimal.

ghost use Rattle.std.specs.Prelude.{◌≤◌, length, IfOk};
ghost use Rattle.sequencer.specs.Checking.{Checks, ChecksRest};
ghost use Rattle.sequencer.specs.declared.limits.TheConstants.{MAX_CHECK_INPUT};

use crate::Status;
use crate::answer::Answer;
use crate::texts::{accepted_text, refusal_text, rule_text};
use instance_text::{TextRefusal, read_front};
use log_check::Verdict;
use proof_log::{LogRefusal, read};
use std::alloc::{AllocError, Global};
use strip_model::Instance;

/// Whether the answer that follows the instance in the input proves its plan optimal.
pub(crate) fn check(alloc: Global, input: &[u8]) -> Result<Answer, AllocError>
    requires { length input.now ≤ MAX_CHECK_INPUT }
    ensures { IfOk result (λ answer. Checks input.now answer.text.items answer.status) }
{
    match read_front(alloc, input) {
        Ok((instance, front)) => check_rest(alloc, &instance, &input[front..]),
        Err(TextRefusal::Memory) => Err(AllocError),
        Err(TextRefusal::Refused(refusal)) => Ok(Answer {
            status: Status::Refused,
            text: refusal_text(alloc, refusal)?,
        }),
    }
}

// Whether the answer that these bytes tell proves its plan optimal.
fn check_rest(alloc: Global, instance: &Instance, rest: &[u8]) -> Result<Answer, AllocError>
    requires { length rest.now ≤ MAX_CHECK_INPUT }
    ensures { IfOk result (λ answer. ChecksRest instance.now rest.now answer.text.items answer.status) }
{
    let log = match read(alloc, rest) {
        Ok(log) => log,
        Err(LogRefusal::Memory) => return Err(AllocError),
        Err(LogRefusal::Refused { line, .. }) => {
            return Ok(Answer {
                status: Status::Rejected,
                text: rule_text(alloc, 0, u64::from(line))?,
            });
        }
    };
    match log_check::check(alloc, instance, &log)? {
        Verdict::Accepted => Ok(Answer {
            status: Status::Done,
            text: accepted_text(alloc, log.gain)?,
        }),
        Verdict::Rejected { rule, at } => Ok(Answer {
            status: Status::Rejected,
            text: rule_text(alloc, rule, at)?,
        }),
    }
}
