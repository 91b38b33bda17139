//! The shared word, from which numbers are drawn, each once, as long as they lie below the budget.
ghost use Rattle.std.specs.Prelude.{◌≡◌, ◌≤◌, ◌<◌, ℕ, All, None, IfSome, IfOk, IfErr, OnOk};
ghost use Rattle.pass_weight.specs.declared.whole_weight.TheConstants.{WHOLE_WEIGHT};
ghost use Rattle.shared_budget.specs.Drawn.{IsDrawerOf, parties};
ghost use Rattle.shared_budget.specs.Calls.{first_drawer, number_of, after_draw, after_split, split_off, together};
ghost use Rattle.shared_budget.specs.Numbers.{AreAllBelow, IsEnd};

use crate::draw_spent::DrawSpent;
use crate::drawer::Drawer;
use crate::rule::{DrawOne, DrawTable, Halve, NEXT, Unite, Weigh};
use atomic_table::Table;
use pass_weight::WHOLE_WEIGHT;
use std::alloc::{AllocError, Global};
use std::marker::Model;

/// The greatest budget.
pub const MOST_BUDGET: u64 = 2_000_000;

/// The next number that is drawn. Threads share it by reference, and each draws with a [`Drawer`] of its own.
///
/// Contracts see it as the name of its table, which tells words apart. It can't be dropped: [`Draws::close`] ends it.
pub struct Draws {
    table: DrawTable,
}

impl Model for Draws {
    ghost use Rattle.std.specs.Prelude.{◌≡◌};
    ghost use Rattle.atomic_table.specs.Seated.{TableId};

    ghost Value = { TableId };

    ghost view = { λ d. d.table.shared.table_id };

    ghost invariant = { λ d.
        (d.table.shared.table_id.words ≡ 1) × (d.table.shared.table_id.slots ≡ 0) };
}

impl Draws {
    /// A word from which no number was drawn, and its first drawer, which has the whole weight, [`WHOLE_WEIGHT`]. The
    /// numbers below `budget` count as within it; it is 1 to [`MOST_BUDGET`].
    ///
    /// `AllocError` where memory ran out.
    pub fn new(alloc: Global, budget: u64) -> Result<(Draws, Drawer), AllocError>
        requires some_budget { 1 ≤ budget }
        requires bounded { budget ≤ MOST_BUDGET }
        ensures { IfOk result (λ made. made.1 ≡ first_drawer made.0 budget) }
    {
        let (table, seat) = Table::of_words(alloc, &[0], &budget)?;
        let drawer = Drawer {
            seat,
            kept: None,
            budget,
            weight: WHOLE_WEIGHT,
        };
        Ok((Draws { table }, drawer))
    }

    /// Draws a number. It waits for nobody and takes no memory.
    ///
    /// [`DrawSpent`] exactly where the drawer was exhausted before, and then nothing was drawn, or became so, since the
    /// number that it drew isn't below the budget. The drawer keeps that number. A number that is drawn exceeds all that the
    /// drawer's parties have drawn before.
    pub fn draw(&self, drawer: &mut Drawer) -> Result<u64, DrawSpent>
        requires own { IsDrawerOf self.now drawer.old }
        ensures drawer { drawer.new ≡ after_draw drawer.old result }
        ensures rises { drawer.old.kept ≡ None → All (All (λ n. n < number_of result)) (parties drawer.old) }
        ensures going_on { OnOk result (drawer.old.kept ≡ None) }
        ensures below { IfOk result (λ number. number < drawer.old.budget) }
        ensures reached { IfErr result (λ spent. drawer.old.budget ≤ spent.number) }
        ensures keeps { IfErr result (λ spent. IfSome drawer.old.kept (λ number. spent.number ≡ number)) }
    {
        if let Some(number) = drawer.kept {
            return Err(DrawSpent { number });
        }
        let number = self
            .table
            .shared
            .fetch_add::<DrawOne>(&mut drawer.seat, NEXT, 1);
        if number < drawer.budget {
            return Ok(number);
        }
        drawer.kept = Some(number);
        Err(DrawSpent { number })
    }

    /// Splits a drawer off. It has drawn nothing, takes half of the weight, rounded down, and is exhausted with the same
    /// number where this one is. The call waits for nobody and takes no memory.
    pub fn split(&self, drawer: &mut Drawer) -> Drawer
        requires own { IsDrawerOf self.now drawer.old }
        requires weight { 2 ≤ drawer.old.weight }
        ensures new { result ≡ split_off drawer.old }
        ensures old { drawer.new ≡ after_split drawer.old }
    {
        let half = drawer.weight / 2;
        drawer.weight -= half;
        let seat = self.table.shared.split_seat::<Halve>(&mut drawer.seat);
        Drawer {
            seat,
            kept: drawer.kept,
            budget: drawer.budget,
            weight: half,
        }
    }

    /// Joins a drawer into another, which keeps the own numbers of both as those of parties, and has the weight of both. It
    /// is exhausted where one of the two was, with its own number where it was itself. The call waits for nobody and takes
    /// no memory.
    pub fn join(&self, into: &mut Drawer, other: Drawer)
        requires own { IsDrawerOf self.now into.old }
        requires other { IsDrawerOf self.now other }
        ensures { into.new ≡ together into.old other }
    {
        let Drawer {
            seat,
            kept,
            budget: _,
            weight,
        } = other;
        into.weight += weight;
        into.kept = into.kept.or(kept);
        let shared = &self.table.shared;
        shared.join_seat::<Unite>(&mut into.seat, seat);
        shared.load::<Weigh>(&mut into.seat, NEXT);
    }

    /// Ends the word and its last drawer. The drawer has the whole weight, so every other one was joined into it: the
    /// numbers of all parties are those below some number, each once. Where the drawer isn't exhausted, that number is at
    /// most the budget; where it is, the number that it keeps, which isn't below the budget, was drawn too.
    pub fn close(self, drawer: Drawer)
        requires own { IsDrawerOf self drawer }
        requires whole { drawer.weight ≡ WHOLE_WEIGHT }
        ensures numbers { (next : ℕ) × AreAllBelow next (parties drawer) × IsEnd next drawer.budget drawer.kept }
    {
        let Drawer {
            seat,
            kept: _,
            budget: _,
            weight: _,
        } = drawer;
        let Draws { table } = self;
        table.close_with(seat).free();
    }
}
