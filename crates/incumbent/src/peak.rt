//! The shared word: it is looked at, raised by offers, and at the end the worth of the best plan.
ghost use Rattle.std.specs.Prelude.{◌≡◌};
ghost use Rattle.pass_weight.specs.declared.whole_weight.TheConstants.{WHOLE_WEIGHT};

use crate::better::keep_better;
use crate::knowledge::Knowledge;
use crate::offered::Offered;
use crate::rule::{Given, Greatest, Halve, Offer, See, Unite, Weigh};
use crate::share::Share;
use crate::worth::Worth;
use atomic_table::{Seat, Table};
use pass_weight::WHOLE_WEIGHT;
use std::alloc::{AllocError, Global};
use std::marker::Brand;

/// The greatest worth that any party has offered. Threads share it by reference, each with a [`Share`] of its own.
pub struct Peak {
    table: Table<(), Knowledge, u64, Greatest, Global>,
    ghost one_word: { table.shared.table_id.words ≡ 1 },
    ghost no_slot: { table.shared.table_id.slots ≡ 0 },
}

impl Peak {
    ghost use Rattle.std.specs.Prelude.{◌≡◌, ◌<◌, ◌≤◌, ◌+◌, ◌/◌, [], max, IfOk};
    ghost use Rattle.incumbent.specs.Share.{plan_of, seen_by, weight_of, knowledge_of};
    ghost use Rattle.incumbent.specs.Peak.{IsShareOf};
    ghost use Rattle.incumbent.specs.Better.{better};
    ghost use Rattle.incumbent.specs.Knowledge.{after_split, split_off};
    ghost use Rattle.incumbent.specs.Offered.{old_of, IsAnswer};
    ghost use Rattle.incumbent.specs.Rule.{IsWordBeside};

    /// A peak whose word is the worth of `first`, and its first share, which has the whole weight and has offered
    /// `first`. `AllocError` where memory ran out; `first` is then dropped.
    pub fn new<P: Worth + Drop>(alloc: Global, first: P) -> Result<(Peak, Share<P>), AllocError>
        ensures own { IfOk result (λ made. IsShareOf made.0 made.1) }
        ensures plan { IfOk result (λ made. plan_of made.1 ≡ first) }
        ensures seen { IfOk result (λ made. seen_by made.1 ≡ P.worth first) }
        ensures word { IfOk result (λ made. IsWordBeside (P.worth first) (knowledge_of made.1)) }
        ensures weight { IfOk result (λ made. weight_of made.1 ≡ WHOLE_WEIGHT) }
    {
        let worth = first.worth();
        let (table, seat) = Table::of_words(alloc, &[worth], &worth)?;
        let share = Share {
            plan: first,
            weight: WHOLE_WEIGHT,
            seat,
        };
        Ok((Peak { table }, share))
    }

    /// The word at a moment of the call. The share has then seen it.
    pub fn see<P: Worth>(&self, share: &mut Share<P>) -> u64
        requires own { IsShareOf self.now share.old }
        ensures never_falls { seen_by share.old ≤ result }
        ensures own_plan { P.worth (plan_of share.old) ≤ result }
        ensures alone { weight_of share.old ≡ WHOLE_WEIGHT → result ≡ P.worth (plan_of share.old) }
        ensures seen { seen_by share.new ≡ result }
        ensures plan { plan_of share.new ≡ plan_of share.old }
        ensures weight { weight_of share.new ≡ weight_of share.old }
        ensures own { IsShareOf self.now share.new }
    {
        self.table.shared.load::<See>(&mut share.seat, 0)
    }

    /// Offers a plan: the word becomes the greater of itself and the plan's worth. The share keeps the plan of greater
    /// worth, its old one where both are worth the same; the other is dropped.
    pub fn offer<P: Worth + Drop>(&self, share: &mut Share<P>, plan: P) -> Offered
        requires own { IsShareOf self.now share.old }
        ensures answer { IsAnswer (P.worth plan) result }
        ensures never_falls { seen_by share.old ≤ old_of result }
        ensures own_plan { P.worth (plan_of share.old) ≤ old_of result }
        ensures alone { weight_of share.old ≡ WHOLE_WEIGHT → old_of result ≡ P.worth (plan_of share.old) }
        ensures seen { seen_by share.new ≡ max (old_of result) (P.worth plan) }
        ensures plan { plan_of share.new ≡ better P.worth (plan_of share.old) plan }
        ensures greatest { P.worth (plan_of share.new) ≡ max (P.worth (plan_of share.old)) (P.worth plan) }
        ensures weight { weight_of share.new ≡ weight_of share.old }
        ensures own { IsShareOf self.now share.new }
    {
        let worth = plan.worth();
        let old = self
            .table
            .shared
            .fetch_max::<Offer>(&mut share.seat, 0, worth);
        keep_better(&mut share.plan, plan);
        if old < worth {
            Offered::Raised { old }
        } else {
            Offered::Kept { old }
        }
    }

    // The seat of a new share, whose plan has this worth. A kind of step can't take a number, so the worth comes as a
    // ghost member, and the number ties the two.
    fn split_seat<G: Given>(
        &self,
        seat: &mut Seat<(), Knowledge>,
        worth: u64,
    ) -> Seat<(), Knowledge>
        requires own { seat.old.table_id ≡ self.now.table.shared.table_id }
        requires given { worth ≡ G.worth }
        requires seen { worth ≤ seat.old.me.0.seen }
        requires weight { 2 ≤ seat.old.me.0.weight }
        ensures own { (seat.new.table_id ≡ seat.old.table_id) × (result.table_id ≡ seat.old.table_id) }
        ensures old { seat.new.me ≡ (after_split seat.old.me.0, seat.old.me.1) }
        ensures new { result.me ≡ (split_off worth seat.old.me.0, []) }
    {
        // For its clauses: the number is the ghost member.
        let _ = worth;
        self.table.shared.split_seat::<Halve<G>>(seat)
    }

    /// A new share, which keeps `first`, has seen what the old share has, and takes half of its weight, rounded down.
    pub fn split<P: Worth>(&self, share: &mut Share<P>, first: P) -> Share<P>
        requires own { IsShareOf self.now share.old }
        requires seen { P.worth first ≤ seen_by share.old }
        requires weight { 2 ≤ weight_of share.old }
        ensures plan { plan_of result ≡ first }
        ensures seen { seen_by result ≡ seen_by share.old }
        ensures weight { weight_of result ≡ weight_of share.old / 2 }
        ensures own { IsShareOf self.now result }
        ensures old_plan { plan_of share.new ≡ plan_of share.old }
        ensures old_seen { seen_by share.new ≡ seen_by share.old }
        ensures old_weight { weight_of share.new + weight_of result ≡ weight_of share.old }
        ensures old_own { IsShareOf self.now share.new }
    {
        let worth = first.worth();
        let seat = self.split_seat::<Brand>(&mut share.seat, worth);
        let weight = share.weight / 2;
        share.weight -= weight;
        Share {
            plan: first,
            weight,
            seat,
        }
    }

    /// Ends the share `other`: `into` keeps the plan of greater worth of both, its own where both are worth the same,
    /// has seen the greater number of both, and has the weight of both.
    pub fn join<P: Worth + Drop>(&self, into: &mut Share<P>, other: Share<P>)
        requires own { IsShareOf self.now into.old }
        requires other { IsShareOf self.now other }
        ensures plan { plan_of into.new ≡ better P.worth (plan_of into.old) (plan_of other) }
        ensures greatest { P.worth (plan_of into.new) ≡ max (P.worth (plan_of into.old)) (P.worth (plan_of other)) }
        ensures seen { seen_by into.new ≡ max (seen_by into.old) (seen_by other) }
        ensures weight { weight_of into.new ≡ weight_of into.old + weight_of other }
        ensures own { IsShareOf self.now into.new }
    {
        let Share { plan, weight, seat } = other;
        self.table.shared.join_seat::<Unite>(&mut into.seat, seat);
        // The weights of all shares are the whole together, so the sum of these two is no more.
        self.table.shared.load::<Weigh>(&mut into.seat, 0);
        into.weight += weight;
        keep_better(&mut into.plan, plan);
    }

    /// Ends the peak and its last share, and gives the plan of greatest worth. The share has the whole weight, so each
    /// other share was joined, and no offer of any party is lost.
    pub fn close<P: Worth>(self, share: Share<P>) -> P
        requires own { IsShareOf self share }
        requires whole { weight_of share ≡ WHOLE_WEIGHT }
        ensures plan { result ≡ plan_of share }
        ensures seen { seen_by share ≤ P.worth result }
        ensures word { IsWordBeside (P.worth result) (knowledge_of share) }
    {
        let Peak { table } = self;
        let Share {
            plan,
            weight: _,
            seat,
        } = share;
        table.close_with(seat).free();
        plan
    }
}
