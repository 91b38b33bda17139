//! Both sides of an instance.

ghost use Rattle.std.specs.Prelude.{◌≡◌, IfOk};
ghost use Rattle.strip_model.specs.Side.{face_of};

use crate::Side;
use std::alloc::{AllocError, Global};
use std::marker::Model;
use strip_model::{End, Instance};

/// The sides of one instance at both ends of the orbit, with one cut, in ticks of the instance's own time.
#[derive(Debug, Drop)]
pub struct Sides {
    forward: Side,
    backward: Side,
}

impl Model for Sides {
    ghost use Rattle.label.specs.Sides.{BothFaces, AreSides, both_faces};

    ghost Value = { BothFaces };

    ghost view = { λ s. both_faces s.forward };

    ghost invariant = { λ s. AreSides s.forward s.backward };
}

impl Sides {
    /// The sides of an instance with this cut, in ticks of the instance's own time. It fails for want of memory alone.
    pub fn new(alloc: Global, instance: &Instance, cut: u32) -> Result<Sides, AllocError>
        ensures instance { IfOk result (λ sides. sides.instance ≡ instance.now) }
        ensures cut { IfOk result (λ sides. sides.cut ≡ cut) }
    {
        Ok(Sides {
            forward: Side::new(alloc, instance, End::Forward, cut)?,
            backward: Side::new(alloc, instance, End::Backward, cut)?,
        })
    }

    /// The side at an end.
    pub fn at(&self, end: End) -> &Side
        ensures { result.now ≡ face_of self.now.instance self.now.cut end }
    {
        match end {
            End::Forward => &self.forward,
            End::Backward => &self.backward,
        }
    }

    /// How far the labels of both sides go, in ticks of the instance's own time.
    pub fn cut(&self) -> u32
        ensures { result ≡ self.now.cut }
    {
        self.forward.cut()
    }
}
