//! Lanes: the buckets as rounds see them, each with its labels that wait.

ghost use Rattle.std.specs.Prelude.{◌≡◌, ◌<◌};
ghost use Rattle.std.specs.List.{All};
ghost use Rattle.bucket.specs.declared.limits.TheConstants.{BUCKETS};
ghost use Rattle.label.specs.Labels.{IsLabelOf};

use bucket::{BUCKETS, Id};
use label::{Label, Side};
use std::alloc::{AllocError, Global};
use std::marker::Model;
use strip_model::End;

/// A label of a bucket that waits to be extended, at hand.
#[derive(Drop)]
pub(crate) struct Waiting {
    /// Its id in the bucket.
    pub(crate) index: u32,
    /// The label.
    pub(crate) label: Label,
}

/// One bucket of a side in a search by rounds. In a round one worker alone makes turns of it. Contracts see the side and the
/// number of the bucket.
#[derive(Drop)]
pub(crate) struct Lane<'a> {
    side: &'a Side,
    number: u8,
    // The labels that wait, in no order.
    waiting: Vec<Waiting>,
    // Those whose extensions are made next.
    ready: Vec<Label>,
    // How many labels have waited here, which tells how much work a lane is.
    weight: u64,
}

impl<'a> Model for Lane<'a> {
    ghost use Rattle.std.specs.List.{All};
    ghost use Rattle.std.specs.Prelude.{◌<◌};
    ghost use Rattle.bucket.specs.declared.limits.TheConstants.{BUCKETS};
    ghost use Rattle.label.specs.Labels.{IsLabelOf};
    ghost use Rattle.pool.specs.Lanes.{LaneName};

    ghost Value = { LaneName };

    ghost view = { λ l. record { side = l.side.now; number = l.number } };

    ghost invariant = { λ l. (l.number < BUCKETS) × All (λ w. IsLabelOf l.side.now w.label) l.waiting.items × All (IsLabelOf l.side.now) l.ready.items };
}

impl<'a> Lane<'a> {
    /// The lane of a bucket, in which no label waits. It takes no memory.
    pub(crate) fn new(alloc: Global, side: &'a Side, number: u8) -> Lane<'a>
        requires { number < BUCKETS }
        ensures { result ≡ record { side = side.entry.now; number = number } }
    {
        Lane {
            side,
            number,
            waiting: Vec::new(alloc),
            ready: Vec::new(alloc),
            weight: 0,
        }
    }

    /// The side.
    pub(crate) fn side(&self) -> &'a Side
        ensures { result.now ≡ self.now.side }
    {
        self.side
    }

    /// The number of the bucket.
    pub(crate) fn number(&self) -> u8
        ensures value { result ≡ self.now.number }
        ensures small { result < BUCKETS }
    {
        self.number
    }

    /// Where the lane stands among those of both sides, the forward ones first.
    pub(crate) fn place(&self) -> u16 {
        match self.side.end() {
            End::Forward => u16::from(self.number),
            End::Backward => BUCKETS + u16::from(self.number),
        }
    }

    /// How much work the lane is.
    pub(crate) fn weight(&self) -> u64 {
        self.weight
    }

    /// The id of a label of the bucket.
    pub(crate) fn id(&self, index: u32) -> Id {
        Id {
            end: self.side.end(),
            bucket: self.number,
            index,
        }
    }

    /// How many labels wait.
    pub(crate) fn len(&self) -> usize {
        self.waiting.len()
    }

    /// One more waits. It fails for want of memory alone.
    pub(crate) fn wait(&mut self, index: u32, label: Label) -> Result<(), AllocError>
        requires { IsLabelOf self.old.side label }
        ensures { self.new ≡ self.old }
    {
        self.waiting.push(Waiting { index, label })?;
        self.weight = self.weight.saturating_add(1);
        Ok(())
    }

    /// One that waited waits on. It fails for want of memory alone.
    pub(crate) fn wait_on(&mut self, one: Waiting) -> Result<(), AllocError>
        requires { IsLabelOf self.old.side one.label }
        ensures { self.new ≡ self.old }
    {
        self.waiting.push(one)?;
        Ok(())
    }

    /// The least last start of those that wait, in ticks of the side, and None where none does.
    pub(crate) fn first_start(&self) -> Option<u32> {
        let mut first = None;
        for waiting in &self.waiting {
            first = earlier(first, waiting.label.start_of_last());
        }
        first
    }

    /// Takes all out that wait.
    pub(crate) fn take_waiting(&mut self, alloc: Global) -> Vec<Waiting>
        ensures lane { self.new ≡ self.old }
        ensures labels { All (λ w. IsLabelOf self.old.side w.label) result.items }
    {
        std::mem::replace(&mut self.waiting, Vec::new(alloc))
    }

    /// A label is ready. It fails for want of memory alone.
    pub(crate) fn make_ready(&mut self, label: Label) -> Result<(), AllocError>
        requires { IsLabelOf self.old.side label }
        ensures { self.new ≡ self.old }
    {
        self.ready.push(label)?;
        Ok(())
    }

    /// Moves all labels out that are ready. It fails for want of memory alone.
    pub(crate) fn move_ready(&mut self, labels: &mut Vec<Label>) -> Result<(), AllocError>
        requires labels { All (IsLabelOf self.old.side) labels.old.items }
        ensures lane { self.new ≡ self.old }
        ensures labels { All (IsLabelOf self.old.side) labels.new.items }
    {
        let count = self.ready.len();
        for _ in 0..count {
            let Some(label) = self.ready.pop() else {
                unreachable!()
            };
            labels.push(label)?;
        }
        Ok(())
    }
}

// The lesser of these two starts, or the one that there is.
fn earlier(first: Option<u32>, start: u32) -> Option<u32> {
    match first {
        None => Some(start),
        Some(first) => Some(first.min(start)),
    }
}
