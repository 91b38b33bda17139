//! What waits, the least first.

ghost use Rattle.std.specs.Prelude.{◌≡◌, ◌+◌, [], length, OnOk, MatchOption};
ghost use Rattle.closer.specs.Waiting.{Joins, Leaves, waits_of};

use crate::wait::Wait;
use std::alloc::{AllocError, Global};
use std::cmp::Reverse;
use std::collections::BinaryHeap;
use std::marker::Model;

/// What waits to be extended. Contracts see it as a list, in no order.
#[derive(Drop)]
pub(crate) struct Queue {
    heap: BinaryHeap<Reverse<Wait>>,
}

impl Model for Queue {
    ghost use Rattle.std.specs.Prelude.{List};
    ghost use Rattle.std.specs.BinaryHeap.{IsHeap, heap_items};
    ghost use Rattle.closer.specs.Waiting.{waits_of, heap_order};
    ghost use Rattle.closer.specs.declared.wait.Wait.{Wait};

    ghost Value = { List Wait };

    ghost view = { λ q. waits_of (heap_items q.heap) };

    ghost invariant = { λ q. IsHeap heap_order (heap_items q.heap) };
}

impl Queue {
    /// Nothing waits. It takes no memory.
    pub(crate) fn new(alloc: Global) -> Queue
        ensures { result ≡ [] }
    {
        Queue {
            heap: BinaryHeap::new(alloc),
        }
    }

    /// What waits, in no order.
    pub(crate) fn as_slice(&self) -> &[Reverse<Wait>]
        ensures { waits_of result.now ≡ self.now }
    {
        self.heap.as_slice()
    }

    /// One more waits. It fails for want of memory alone.
    pub(crate) fn push(&mut self, wait: Wait) -> Result<(), AllocError>
        ensures { OnOk result (Joins wait self.old self.new) }
    {
        self.heap.push(Reverse(wait))?;
        Ok(())
    }

    /// Takes out the least of those that wait, and tells None where none does.
    pub(crate) fn pop(&mut self) -> Option<Wait>
        ensures { MatchOption result ((self.old ≡ []) × (self.new ≡ [])) (λ wait. Leaves wait self.old self.new) }
    {
        let Some(Reverse(wait)) = self.heap.pop() else {
            return None;
        };
        Some(wait)
    }
}
