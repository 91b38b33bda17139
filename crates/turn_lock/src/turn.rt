//! The lock: a ticket is drawn, awaited and served, so that callers take turns round the value, one at a time.
ghost use Rattle.std.specs.Prelude.{◌≡◌, ◌≤◌, ◌<◌, ◌+◌, ◌-◌, ◌/◌, ◌^◌, ◌⊎◌, ◌++◌, ◌∷◌, [], ℕ, List, Some, None, IsSomeAnd, ◌%◌, OnOk, OnErr, IfOk, IfErr};
ghost use mathlib.Core.List.{IsPrefix};
ghost use Rattle.pass_weight.specs.declared.whole_weight.TheConstants.{WHOLE_WEIGHT};
ghost use Rattle.turn_lock.specs.Pass.{first_pass, parties};
ghost use Rattle.turn_lock.specs.Interleaving.{IsInterleaving};
ghost use Rattle.turn_lock.specs.Steps.{Takes};
ghost use Rattle.turn_lock.specs.declared.view.Stage.TheVariants.{Waiting};

use crate::chronicle::Chronicle;
use crate::held::Held;
use crate::rule::{
    Compare, Draw, Halve, Look, Merge, SERVING, SLOT, Serve, TICKET, TurnSeat, TurnShared,
    TurnTable,
};
use crate::turn_pass::TurnPass;
use crate::turn_spent::{MOST_TURNS, TurnSpent};
use atomic_table::{Refused, Table};
use pass_weight::WHOLE_WEIGHT;
use std::alloc::{AllocError, Global};
use std::hint::spin_loop;
use std::marker::Model;
use std::snapshot::Snapshot;
use std::sync::Wait;

/// How often a caller looks for its turn before it sleeps.
const LOOKS: u32 = 100;

/// A lock round one value. Threads share it by reference, and each takes turns with a pass of its own.
///
/// Contracts see it as the name of its table, which tells locks apart. It can't be dropped: [`Turn::close`] takes it apart.
pub struct Turn<T: Chronicle> {
    table: TurnTable<T>,
}

impl<T: Chronicle> Model for Turn<T> {
    ghost use Rattle.std.specs.Prelude.{◌≡◌};
    ghost use Rattle.atomic_table.specs.Seated.{TableId};

    ghost Value = { TableId };

    ghost view = { λ t. t.table.shared.table_id };

    ghost invariant = { λ t.
        (t.table.shared.table_id.words ≡ 2) × (t.table.shared.table_id.slots ≡ 1) };
}

impl<T: Chronicle> Turn<T> {
    /// A lock round `first`, and its first pass, which has the whole weight, [`WHOLE_WEIGHT`].
    ///
    /// `AllocError` where memory ran out; then `first` is dropped.
    pub fn new(alloc: Global, first: T) -> Result<(Turn<T>, TurnPass<T>), AllocError>
    where
        T: Drop,
        requires empty { T.history first ≡ [] }
        ensures { IfOk result (λ made. made.1 ≡ first_pass made.0 (T.frame first)) }
    {
        let about = Snapshot::of(&first);
        let mut slots = Vec::with_capacity(alloc, 1)?;
        slots.push_reserved(Some(first));
        let Ok((table, seat)) = Table::new(alloc, &[0, 0], slots, &about) else {
            return Err(AllocError);
        };
        let pass = TurnPass {
            seat,
            turns: 0,
            weight: WHOLE_WEIGHT,
        };
        Ok((Turn { table }, pass))
    }

    /// Takes a turn with this pass, which counts it. It may wait, and no clause says that it ever gets the turn.
    ///
    /// [`TurnSpent`] exactly where the pass has made [`MOST_TURNS`] turns; then no ticket was drawn.
    pub fn enter<R: Wait>(&self, rt: &R, pass: &mut TurnPass<T>) -> Result<Held<T>, TurnSpent>
        requires lock { pass.old.lock ≡ self.now }
        requires idle { pass.old.turn ≡ None }
        ensures begins { IfOk result (λ held. IsPrefix pass.old.seen (T.history held)) }
        ensures frame { IfOk result (λ held. pass.old.frame ≡ Some (T.frame held)) }
        ensures counted { IfOk result (λ held. pass.new ≡
            record pass.old { turns = pass.old.turns + 1; turn = Some (T.history held) }) }
        ensures room { OnOk result (pass.old.turns < MOST_TURNS) }
        ensures spent { IfErr result (λ e. (pass.old.turns ≡ MOST_TURNS) × (e.count ≡ MOST_TURNS)) }
        ensures unchanged { OnErr result (pass.new ≡ pass.old) }
    {
        if pass.turns == MOST_TURNS {
            return Err(TurnSpent { count: pass.turns });
        }
        pass.turns += 1;
        let shared = &self.table.shared;
        let ticket = shared.fetch_add::<Draw>(&mut pass.seat, TICKET, 1);
        await_turn(rt, shared, &mut pass.seat, ticket);
        let value = shared.exchange(&mut pass.seat, SLOT, None).unwrap();
        Ok(Held::new(value))
    }

    /// Gives back the turn that was taken with this pass. The history only grew, and the frame is as it was.
    ///
    /// The pass has then seen the whole history, and what was added to it is added to the pass's own entries, in order. It
    /// waits for nobody and takes no memory.
    pub fn leave(&self, held: Held<T>, pass: &mut TurnPass<T>)
        requires lock { pass.old.lock ≡ self.now }
        requires grown { IsSomeAnd pass.old.turn (λ found. IsPrefix found (T.history held)) }
        requires frame { pass.old.frame ≡ Some (T.frame held) }
        ensures seen { pass.new.seen ≡ T.history held }
        ensures own { (found added : List T.Entry) → pass.old.turn ≡ Some found →
            T.history held ≡ found ++ added → pass.new.own ≡ pass.old.own ++ added }
        ensures others { pass.new ≡
            record pass.old { seen = pass.new.seen; own = pass.new.own; turn = None } }
    {
        let shared = &self.table.shared;
        let away = shared.exchange(&mut pass.seat, SLOT, Some(held.into_value()));
        let None = away else { unreachable!() };
        let served = shared.fetch_add::<Serve<T>>(&mut pass.seat, SERVING, 1);
        if shared.peek(TICKET) != served.wrapping_add(1) {
            shared.wake_all(SERVING);
        }
    }

    /// Splits a pass off. It has seen what this one has, made no entry and no turn, and takes half of the weight, rounded
    /// down. The call waits for nobody and takes no memory.
    pub fn split(&self, pass: &mut TurnPass<T>) -> TurnPass<T>
        requires lock { pass.old.lock ≡ self.now }
        requires idle { pass.old.turn ≡ None }
        requires weight { 2 ≤ pass.old.weight }
        ensures new { result ≡
            record pass.old { own = []; joined = []; turns = 0; weight = pass.old.weight / 2 } }
        ensures old { pass.new ≡ record pass.old { weight = pass.old.weight - pass.old.weight / 2 } }
    {
        let half = pass.weight / 2;
        pass.weight -= half;
        let seat = self.table.shared.split_seat::<Halve>(&mut pass.seat);
        TurnPass {
            seat,
            turns: 0,
            weight: half,
        }
    }

    /// Joins a pass into another, which has then seen the longer of both lists. It keeps the own entries of both as those of
    /// parties, and its own count of turns; the weights are added. The call waits for nobody and takes no memory.
    pub fn join(&self, into: &mut TurnPass<T>, other: TurnPass<T>)
        requires lock { into.old.lock ≡ self.now }
        requires other_lock { other.lock ≡ self.now }
        requires idle { into.old.turn ≡ None }
        requires other_idle { other.turn ≡ None }
        ensures seen { IsPrefix into.old.seen into.new.seen }
        ensures other_seen { IsPrefix other.seen into.new.seen }
        ensures longer { (into.new.seen ≡ into.old.seen) ⊎ (into.new.seen ≡ other.seen) }
        ensures others { into.new ≡ record into.old {
          seen = into.new.seen;
          joined = into.old.joined ++ parties other;
          weight = into.old.weight + other.weight;
        } }
    {
        let TurnPass {
            seat,
            turns: _,
            weight,
        } = other;
        into.weight += weight;
        let shared = &self.table.shared;
        shared.join_seat::<Merge>(&mut into.seat, seat);
        shared.load::<Compare>(&mut into.seat, TICKET);
    }

    /// Takes the value out. This pass has the whole weight, so every other one was joined into it. The call takes no memory.
    pub fn close(self, pass: TurnPass<T>) -> T
        requires lock { pass.lock ≡ self }
        requires idle { pass.turn ≡ None }
        requires whole { pass.weight ≡ WHOLE_WEIGHT }
        ensures frame { pass.frame ≡ Some (T.frame result) }
        ensures begins { IsPrefix pass.seen (T.history result) }
        ensures parties { IsInterleaving (T.history result) (parties pass) }
    {
        let TurnPass {
            seat,
            turns: _,
            weight: _,
        } = pass;
        let Turn { table } = self;
        let mut closed = table.close_with(seat);
        let value = closed.take(SLOT).unwrap();
        closed.free();
        value
    }
}

/// Waits until the ticket is served, and takes the slot: it looks some times, and then sleeps between looks.
fn await_turn<T: Chronicle, R: Wait>(
    rt: &R,
    shared: &TurnShared<T>,
    seat: &mut TurnSeat<T>,
    ticket: u64,
)
    requires table { seat.old.table_id ≡ shared.now.table_id }
    requires words { shared.now.table_id.words ≡ 2 }
    requires slots { shared.now.table_id.slots ≡ 1 }
    requires waits { (k : ℕ) ×
        (seat.old.me.0.stage ≡ Waiting k) × (ticket ≡ k % 2 ^ 64) }
    requires no_slot { seat.old.me.1 ≡ [] }
    requires weight { 1 ≤ seat.old.me.0.weight }
    ensures table { seat.new.table_id ≡ seat.old.table_id }
    ensures taken { (k : ℕ) → seat.old.me.0.stage ≡ Waiting k →
        Takes T.history T.frame k seat.old.me seat.new.me }
{
    let mut looks = 0;
    for _ in rt.forever() {
        let serving = shared.load::<Look<T>>(seat, SERVING);
        if serving == ticket {
            return;
        }
        if looks < LOOKS {
            looks += 1;
            spin_loop();
        } else {
            shared.park(rt, SERVING, (serving % (1 << 32)) as u32);
        }
    }
    unreachable!()
}
