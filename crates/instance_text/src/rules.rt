//! The rules on twins and on the table, tested once the form of a text is right.

ghost use Rattle.std.specs.Prelude.{◌≡◌, IfOk, IfErr};
ghost use Rattle.strip_model.specs.IsInstance.{IsInstance};
ghost use Rattle.instance_text.specs.Reading.{orbit_of};
ghost use Rattle.instance_text.specs.Rules.{twins_broken, table_broken, IsNotShape, IsUnmade};
ghost use Rattle.instance_text.specs.Text.{IsInForm};

use crate::contents::Contents;
use crate::refusal::Cause;
use manoeuvre::TableRefusal;
use std::alloc::Global;
use stereo_twins::TwinRefusal;
use strip_model::{Instance, ModelRefusal, twin_map};

// Why the contents of a text make no instance.
#[derive(Drop)]
pub(crate) enum Unmade {
    // They break a rule.
    Broken(Cause),
    // No memory was left.
    Memory,
}

impl From<TwinRefusal> for Unmade {
    ghost from_gives = { λ refusal unmade. unmade ≡ twins_broken refusal };

    fn from(refusal: TwinRefusal) -> Self {
        match refusal {
            TwinRefusal::SelfTwin { i } => Unmade::Broken(Cause::TwinSelf { i }),
            TwinRefusal::OtherRequest { i } => Unmade::Broken(Cause::TwinOtherRequest { i }),
            TwinRefusal::NotMutual { i } => Unmade::Broken(Cause::TwinNotMutual { i }),
            TwinRefusal::Memory => Unmade::Memory,
        }
    }
}

// The instance of what a text says.
pub(crate) fn make(alloc: Global, contents: Contents) -> Result<Instance, Unmade>
    requires { IsInForm (orbit_of contents) }
    ensures made { IfOk result (λ instance. instance ≡ orbit_of contents) }
    ensures sound { IfOk result IsInstance }
    ensures unmade { IfErr result (IsUnmade (orbit_of contents)) }
{
    let Contents {
        requests,
        strips,
        entries,
    } = contents;
    twin_map(alloc, &strips)?;
    match Instance::new(alloc, requests, strips, &entries) {
        Ok(instance) => Ok(instance),
        Err(ModelRefusal::Memory) => Err(Unmade::Memory),
        Err(ModelRefusal::Table(refusal)) => Err(table_unmade(refusal)),
    }
}

// What a table of the right shape breaks.
fn table_unmade(refusal: TableRefusal) -> Unmade
    requires { IsNotShape refusal }
    ensures { result ≡ table_broken refusal }
{
    match refusal {
        TableRefusal::SameStrip { x, y, value } => {
            Unmade::Broken(Cause::SameStrip { x, y, value })
        }
        TableRefusal::Shortcut { x, y, z } => Unmade::Broken(Cause::Shortcut { x, y, z }),
        TableRefusal::Memory => Unmade::Memory,
        TableRefusal::Shape { .. } => unreachable!(),
    }
}
