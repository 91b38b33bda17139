//! Which of two plans is kept.
ghost use Rattle.std.specs.Prelude.{◌≡◌};
ghost use Rattle.incumbent.specs.Better.{better};

use crate::worth::Worth;

// Keeps the plan of greater worth, the old one where both are worth the same. The other is dropped.
pub(crate) fn keep_better<P: Worth + Drop>(kept: &mut P, plan: P)
    ensures { kept.new ≡ better P.worth kept.old plan }
{
    if kept.worth() < plan.worth() {
        *kept = plan;
    }
}
