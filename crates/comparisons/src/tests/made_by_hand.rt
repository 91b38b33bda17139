//! A search made by hand, step by step: its log is written, read again and checked.

ghost use Rattle.std.specs.Prelude.{◌≡◌};
ghost use Rattle.strip_model.specs.Side.{face_of};
ghost use Rattle.strip_model.specs.declared.end.End.TheVariants.{Forward, Backward};

use bucket::Id;
use inst_maker::make;
use label::Side;
use label_core::{Core, Event, MAX_CORE_LABELS, StepRefusal, log_of, step};
use log_check::{Verdict, check};
use proof_log::{put_answer_lines, read, write};
use std::alloc::Global;
use std::test::Fail;
use strip_model::{Directed, End, Instance};

// Two strips, of which the first starts by the cut and the second after it.
pub(super) const SEED: u32 = 7;

pub(super) const CUT: u32 = 101;

pub(super) const FIRST: Id = Id {
    end: End::Forward,
    bucket: 0,
    index: 0,
};

pub(super) const SECOND: Id = Id {
    end: End::Backward,
    bucket: 2,
    index: 0,
};

// How many steps the search has.
const STEPS: u32 = 7;

// The number of the step that inserts the second label, the last of those that insert one.
const LAST_INSERT: u32 = 1;

// What the search leaves.
const WHOLE: &str =
    "Optimal\ngain 122500/20\nstrips 2\n30 0 0\n127 1 0\nlabels 2\nlog\ncut 101\nF 0\nB 2\nC F 0\nC B 0\nend\n";

// What it leaves without the second label, which all later steps but the first label's `Take` need.
const HALF: &str = "Optimal\ngain 0/20\nstrips 0\nlabels 1\nlog\ncut 101\nF 0\nend\n";

// No text is longer here.
const MOST_BYTES: usize = 10_000;

// The event of a new label whose path is one directed strip.
fn label_of(alloc: Global, end: End, x: Directed) -> Result<Event, Fail> {
    let path = vec![in alloc; x]?;
    Ok(Event::Insert { end, path })
}

/// The events of the search, by number.
pub(super) fn event_of(alloc: Global, number: u32) -> Result<Event, Fail> {
    match number {
        0 => label_of(alloc, End::Forward, Directed(0)),
        1 => label_of(alloc, End::Backward, Directed(2)),
        _ => Ok(later_event(number)),
    }
}

// Those after the inserts.
fn later_event(number: u32) -> Event {
    match number {
        2 => Event::Take { id: FIRST },
        3 => Event::Take { id: SECOND },
        4 => Event::Join {
            forward: Some(FIRST),
            backward: Some(SECOND),
        },
        5 => Event::Cut { id: FIRST },
        _ => Event::Cut { id: SECOND },
    }
}

/// Makes the step of an event, and tells whether there is one.
pub(super) fn attempt(core: &mut Core<'_>, event: Event) -> Result<bool, Fail> {
    if core.labels() >= MAX_CORE_LABELS {
        return Err("no room for a label".into());
    }
    match step(core, event) {
        Ok(()) => Ok(true),
        Err(StepRefusal::Illegal) => Ok(false),
        Err(StepRefusal::Memory) => Err("out of memory".into()),
    }
}

// Makes all steps of the search but one.
fn search_without(alloc: Global, core: &mut Core<'_>, left_out: u32) -> Result<(), Fail> {
    for number in 0..STEPS {
        if number != left_out {
            attempt(core, event_of(alloc, number)?)?;
        }
    }
    Ok(())
}

// The text of the log that is left without one step.
fn text_without(alloc: Global, core: &mut Core<'_>, left_out: u32) -> Result<Vec<u8>, Fail> {
    search_without(alloc, core, left_out)?;
    let log = log_of(alloc, core)?;
    let mut text = Vec::new(alloc);
    put_answer_lines(&mut text, &log)?;
    Ok(text)
}

// The verdict on the log that a text has.
fn verdict_on(alloc: Global, instance: &Instance, text: &[u8]) -> Result<Verdict, Fail> {
    if text.len() > MOST_BYTES {
        return Err("the text is long".into());
    }
    let log = read(alloc, text)?;
    if log.forward.len() > MOST_BYTES || log.backward.len() > MOST_BYTES {
        return Err("the log is long".into());
    }
    Ok(check(alloc, instance, &log)?)
}

// Whether a text is read and written again as it was.
fn is_written_again(alloc: Global, text: &[u8]) -> Result<bool, Fail> {
    if text.len() > MOST_BYTES {
        return Err("the text is long".into());
    }
    let log = read(alloc, text)?;
    Ok(write(alloc, &log)?.as_slice() == text)
}

// The text of the log that the search leaves without one step, over two sides of an instance.
fn text_over(
    alloc: Global,
    instance: &Instance,
    forward: &Side,
    backward: &Side,
    left_out: u32,
) -> Result<Vec<u8>, Fail>
    requires forward { forward.now ≡ face_of instance.now forward.now.cut Forward }
    requires backward { backward.now ≡ face_of instance.now forward.now.cut Backward }
{
    let mut core = Core::new(alloc, instance, forward, backward)?;
    text_without(alloc, &mut core, left_out)
}

// The text of the log that the search leaves without one step, where the orbit is cut at this tick.
fn text_left(alloc: Global, instance: &Instance, cut: u32, left_out: u32) -> Result<Vec<u8>, Fail> {
    let forward = Side::new(alloc, instance, End::Forward, cut)?;
    let backward = Side::new(alloc, instance, End::Backward, cut)?;
    text_over(alloc, instance, &forward, &backward, left_out)
}

#[test]
fn the_log_of_a_whole_search_is_accepted(rt: HostRuntime) -> Result<(), Fail> {
    let instance = make(rt.alloc(), SEED, 2)?;
    let text = text_left(rt.alloc(), &instance, CUT, STEPS)?;
    assert_eq!(rt; text.as_slice(), WHOLE.as_bytes());
    assert!(rt; is_written_again(rt.alloc(), &text)?);
    let verdict = verdict_on(rt.alloc(), &instance, &text)?;
    assert_eq!(rt; verdict, Verdict::Accepted);
    Ok(())
}

#[test]
fn a_search_without_its_last_label_is_rejected(rt: HostRuntime) -> Result<(), Fail> {
    let instance = make(rt.alloc(), SEED, 2)?;
    let text = text_left(rt.alloc(), &instance, CUT, LAST_INSERT)?;
    assert_eq!(rt; text.as_slice(), HALF.as_bytes());
    let verdict = verdict_on(rt.alloc(), &instance, &text)?;
    // The root of the other side can be extended by that label.
    assert_eq!(rt; verdict, Verdict::Rejected { rule: 7, at: 2 });
    Ok(())
}
