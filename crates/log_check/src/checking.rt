//! The check of a log, rule by rule.

ghost use Rattle.std.specs.Prelude.{◌≡◌, ◌↔◌, ◌≤◌, ℕ, length, IfOk};
ghost use Rattle.label.specs.declared.limits.TheConstants.{MAX_LISTED};
ghost use Rattle.log_check.specs.Faults.{Rule, number_of, IsFirstFault};
ghost use Rattle.log_check.specs.Reading.{HasFewLabels};
ghost use Rattle.log_check.specs.Verdicts.{IsVerdict, AreKeptBefore};
ghost use Rattle.proof_log.specs.Rules.{IsProof};
ghost use Rattle.strip_model.specs.Optimal.{Optimal};
ghost use Rattle.strip_model.specs.Plan.{gain_of};

use crate::Verdict;
use crate::extending::first_unextended;
use crate::indexing::{Indexing, index_labels};
use crate::joining::first_join;
use crate::listed::Listed;
use crate::marked::Marked;
use crate::marking::{first_uncut, first_unretired};
use crate::naming::first_unnamed;
use crate::planning::{first_plan_fault, first_wrong_gain};
use crate::reading::Reading;
use crate::seated::Seated;
use label::Sides;
use proof_log::Log;
use std::alloc::{AllocError, Global};
use strip_model::Instance;

/// Whether a log proves that its plan is optimal: accepted exactly where it keeps the eight rules, and else rejected with
/// the first rule that it breaks and the first place at which it does. All places of a rule are tested before the next
/// rule. It fails for want of memory alone; the log stands as it was. Memory is taken for lists of the labels, for the number
/// of the first mark of each label, and for the labels that no mark marks.
pub fn check(alloc: Global, instance: &Instance, log: &Log) -> Result<Verdict, AllocError>
    requires forward { length log.now.forward.items ≤ MAX_LISTED }
    requires backward { length log.now.backward.items ≤ MAX_LISTED }
    ensures accepted { IfOk result (λ verdict. (verdict ≡ Verdict.Accepted) ↔ IsProof instance.now log.now) }
    ensures optimal { IfOk result (λ verdict. verdict ≡ Verdict.Accepted → Optimal instance.now log.now.plan.items) }
    ensures gain { IfOk result (λ verdict. verdict ≡ Verdict.Accepted → log.now.gain ≡ gain_of instance.now log.now.plan.items) }
    ensures rejected { IfOk result (λ verdict. (rule at : ℕ) → verdict ≡ Verdict.Rejected rule at
        → (r : Rule) × (rule ≡ number_of r) × IsFirstFault instance.now log.now r at) }
{
    let _strips = instance.strips();
    verdict_on(alloc, instance, log)
}

// The verdict on a log.
fn verdict_on(alloc: Global, instance: &Instance, log: &Log) -> Result<Verdict, AllocError>
    requires { HasFewLabels log.now }
    ensures { IfOk result (IsVerdict instance.now log.now) }
{
    match first_plan_fault(instance, log) {
        Some(at) => Ok(Verdict::Rejected { rule: 1, at }),
        None => match first_wrong_gain(instance, log) {
            Some(at) => Ok(Verdict::Rejected { rule: 2, at }),
            None => {
                let sides = Sides::new(alloc, instance, log.cut)?;
                verdict_on_labels(alloc, &Reading::new(instance, log, &sides))
            }
        },
    }
}

// The verdict on a log that keeps the first two rules.
fn verdict_on_labels(alloc: Global, reading: &Reading<'_>) -> Result<Verdict, AllocError>
    requires { AreKeptBefore reading.now.instance reading.now.log 3 }
    ensures { IfOk result (IsVerdict reading.now.instance reading.now.log) }
{
    match index_labels(alloc, reading)? {
        Indexing::WrongAt(at) => Ok(Verdict::Rejected { rule: 3, at }),
        Indexing::Right(listed) => match first_unnamed(reading.log()) {
            Some(at) => Ok(Verdict::Rejected { rule: 4, at }),
            None => verdict_on_marks(alloc, &listed),
        },
    }
}

// The verdict on a log that keeps the first four rules.
fn verdict_on_marks(alloc: Global, listed: &Listed<'_>) -> Result<Verdict, AllocError>
    requires { AreKeptBefore listed.now.instance listed.now.log 5 }
    ensures { IfOk result (IsVerdict listed.now.instance listed.now.log) }
{
    let marked = Marked::new(alloc, listed)?;
    match first_unretired(&marked) {
        Some(at) => Ok(Verdict::Rejected { rule: 5, at }),
        None => match first_uncut(&marked) {
            Some(at) => Ok(Verdict::Rejected { rule: 6, at }),
            None => verdict_on_seats(alloc, &Seated::new(alloc, &marked)?),
        },
    }
}

// The verdict on a log that keeps the first six rules.
fn verdict_on_seats(alloc: Global, seated: &Seated<'_>) -> Result<Verdict, AllocError>
    requires { AreKeptBefore seated.now.instance seated.now.log 7 }
    ensures { IfOk result (IsVerdict seated.now.instance seated.now.log) }
{
    match first_unextended(alloc, seated)? {
        Some(at) => Ok(Verdict::Rejected { rule: 7, at }),
        None => match first_join(alloc, seated)? {
            Some(at) => Ok(Verdict::Rejected { rule: 8, at }),
            None => Ok(Verdict::Accepted),
        },
    }
}
