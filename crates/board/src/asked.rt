//! The replies that a pass had, for clauses alone.

ghost use Rattle.std.specs.Prelude.{◌≡◌, ◌++◌, ◌∷◌, [], IfOk};

use crate::reply::Reply;
use atomic_table::{Play, Seat, Table, TableRule};
use bucket::Id;
use std::alloc::{AllocError, Global};
use std::collections::LinkedList;
use std::marker::Model;
use strip_model::End;

/// The rule of the table below, which asks nothing: no reply is there at first.
pub(crate) struct Unruled;

impl TableRule<Reply, LinkedList<Reply>, ()> for Unruled {
    ghost use Rattle.std.specs.Prelude.{[]};

    ghost holds = { λ key state. Unit {0} };

    ghost first = { λ key. [] };
}

/// A step that announces a reply: it stands behind the others.
pub(crate) struct Hear;

impl Play<Reply, LinkedList<Reply>> for Hear {
    ghost use Rattle.board.specs.Replies.{Hears};

    ghost then = { Hears };
}

/// The replies that a pass had from the queues, in order. Contracts see it as their list.
///
/// The list exists in proofs alone: it is what the one seat of a table knows that nobody else has. So a reply costs one step on
/// a word of the pass's own, whatever the length of the list.
#[derive(Drop)]
pub(crate) struct Asked {
    table: Table<Reply, LinkedList<Reply>, (), Unruled, Global>,
    seat: Seat<Reply, LinkedList<Reply>>,
}

impl Model for Asked {
    ghost use Rattle.std.specs.Prelude.{◌≡◌, List};
    ghost use Rattle.board.specs.declared.reply.Reply.{Reply};

    ghost Value = { List Reply };

    ghost view = { λ a. a.seat.me.0 };

    ghost invariant = { λ a. (a.seat.table_id ≡ a.table.shared.table_id) × (a.table.shared.table_id.words ≡ 1) };
}

impl Asked {
    /// No replies. `AllocError` where memory ran out.
    pub(crate) fn new(alloc: Global) -> Result<Asked, AllocError>
        ensures { IfOk result (λ asked. asked ≡ []) }
    {
        let (table, seat) = Table::of_words(alloc, &[0], &())?;
        Ok(Asked { table, seat })
    }

    /// One reply more.
    pub(crate) fn hear(&mut self, end: End, id: Option<Id>)
        ensures { self.new ≡ self.old ++ record { end = end; id = id } ∷ [] }
    {
        let reply = Reply { end, id };
        let table = &self.table;
        table
            .shared
            .compare_exchange_with::<Hear>(&mut self.seat, 0, 0, 0, &reply);
    }
}
