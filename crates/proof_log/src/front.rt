//! The lines of an answer's text before its log.

ghost use Rattle.std.specs.Prelude.{IfOk, IfErr};
ghost use Rattle.plan_check.specs.Reading.{IsLineBegun};
ghost use Rattle.proof_log.specs.AnswerReading.{IsUnread, IsFrontRead, AreAcquisitionsRead};
ghost use Rattle.proof_log.specs.AnswerRefusal.{AtStatus, plan_stage};

use crate::MAX_LABELS;
use crate::lines::{read_acquisition, read_gain, read_heading, read_number};
use crate::unread::Unread;
use seq_io::StrictReader;
use std::alloc::Global;
use strip_model::{Acquisition, MAX_STRIPS};

// The gain in twentieths, the plan, and how many labels follow.
#[derive(Drop)]
pub(crate) struct Front {
    pub(crate) gain: u64,
    pub(crate) plan: Vec<Acquisition>,
    pub(crate) labels: usize,
}

// Reads the lines before the log.
pub(crate) fn read_front(alloc: Global, reader: &mut StrictReader<'_>) -> Result<Front, Unread>
    requires { IsLineBegun reader.old }
    ensures read { IfOk result (IsFrontRead reader.old reader.new) }
    ensures unread { IfErr result (IsUnread AtStatus reader.old reader.new) }
{
    read_heading(reader, "Optimal")?;
    let gain = read_gain(reader)?;
    let strips = read_number(reader, "strips", MAX_STRIPS as u64)?;
    let plan = read_acquisitions(alloc, reader, strips as usize)?;
    let labels = read_number(reader, "labels", MAX_LABELS as u64)?;
    Ok(Front {
        gain,
        plan,
        labels: labels as usize,
    })
}

// Reads so many lines of acquisitions.
fn read_acquisitions(
    alloc: Global,
    reader: &mut StrictReader<'_>,
    wanted: usize,
) -> Result<Vec<Acquisition>, Unread>
    requires { IsLineBegun reader.old }
    ensures read { IfOk result (λ plan. AreAcquisitionsRead wanted reader.old reader.new plan.items) }
    ensures unread { IfErr result (IsUnread (plan_stage wanted) reader.old reader.new) }
{
    let mut plan = Vec::new(alloc);
    while plan.len() < wanted {
        plan.push(read_acquisition(reader)?)?;
    }
    Ok(plan)
}
