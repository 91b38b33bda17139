//! Whether two labels join, and what they gain.

ghost use Rattle.std.specs.Prelude.{◌↔◌, IsTrue, IsSome, IfSome};
ghost use Rattle.std.specs.Option.{option_map};
ghost use Rattle.joiner.specs.LabelJoins.{IsLabelAt, MeetsLaw, IsJoined};
ghost use Rattle.joiner.specs.Tips.{IsWithin, IsTipAt, HasTime};
ghost use Rattle.label.specs.Labels.{path_of};
ghost use Rattle.strip_model.specs.declared.end.End.TheVariants.{Forward, Backward};

use crate::matching::matching;
use crate::tip::{Tip, tip_of};
use label::Label;
use strip_model::{End, Instance};

/// What a forward label and a backward one of an instance gain together, in twentieths, where they join: their plan is the
/// forward path followed by the backward one turned round, at earliest starts. None where they don't. A label that is None is
/// the root of its side. The labels may be of sides with any cuts. It takes no memory.
pub fn joined(instance: &Instance, f: Option<&Label>, b: Option<&Label>) -> Option<u64>
    requires forward { IfSome f (λ l. IsLabelAt instance.now Forward l.now) }
    requires backward { IfSome b (λ l. IsLabelAt instance.now Backward l.now) }
    ensures law { IsSome result ↔ MeetsLaw instance.now (option_map (λ l. l.now) f.entry) (option_map (λ l. l.now) b.entry) }
    ensures value { IsJoined instance.now (path_of (option_map (λ l. l.now) f.entry)) (path_of (option_map (λ l. l.now) b.entry)) result }
{
    // For its clause: the instance keeps what every instance keeps.
    let _ = instance.strips();
    let forward = tip_at(instance, End::Forward, f);
    let backward = tip_at(instance, End::Backward, b);
    if !has_time(instance, &forward, &backward) {
        return None;
    }
    matching(instance, &forward, &backward)
}

// The tip of a label at this end, and none for the root.
fn tip_at(instance: &Instance, end: End, label: Option<&Label>) -> Option<Tip>
    requires { IfSome label (λ l. IsLabelAt instance.now end l.now) }
    ensures { IsTipAt instance.now end (path_of (option_map (λ l. l.now) label.entry)) result }
{
    match label {
        None => None,
        Some(label) => Some(tip_of(instance, end, label)),
    }
}

// Whether there is time for the manoeuvre between the two.
fn has_time(instance: &Instance, f: &Option<Tip>, b: &Option<Tip>) -> bool
    requires forward { IfSome f.now (IsWithin instance.now) }
    requires backward { IfSome b.now (IsWithin instance.now) }
    ensures { IsTrue result ↔ HasTime instance.now f.now b.now }
{
    match (f, b) {
        (Some(f), Some(b)) => {
            let horizon = u64::from(instance.horizon());
            let between = instance.manoeuvre(f.last, b.last);
            u64::from(f.over) + u64::from(between) + u64::from(b.over) <= horizon
        }
        _ => true,
    }
}
