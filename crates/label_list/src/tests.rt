//! A list of the two labels of a side with one strip.

ghost use Rattle.std.specs.Prelude.{IfOk};
ghost use Rattle.label.specs.Labels.{IsLabelOf};

use super::*;
use crate::path_index::PathIndex;
use crate::record::Record;
use label::{Brief, Label, Side, restore};
use std::alloc::Global;
use std::test::Fail;
use strip_model::{Directed, End, Instance, Request, Strip, Window};
use strip_set::DirectedSet;

const ONLY: Strip = Strip {
    request: 0,
    twin: None,
    area: 10,
    windows: [
        Window {
            early: 0,
            late: 4,
            duration: 5,
        },
        Window {
            early: 1,
            late: 4,
            duration: 5,
        },
    ],
};

const FORTH: Directed = Directed(0);

const BACK: Directed = Directed(1);

fn a_side(alloc: Global) -> Result<Side, Fail> {
    let requests = vec![in alloc; Request { gain: 2 }]?;
    let strips = vec![in alloc; ONLY]?;
    let instance = Instance::new(alloc, requests, strips, &[0, 0, 0, 0])?;
    Ok(Side::new(alloc, &instance, End::Forward, 4)?)
}

// The label of one directed strip.
fn label_of(alloc: Global, side: &Side, x: Directed) -> Result<Label, Fail>
    ensures { IfOk result (IsLabelOf side.now) }
{
    match restore(alloc, side, &[x])? {
        Some(label) => Ok(label),
        None => Err("it is a label path".into()),
    }
}

#[test]
fn labels_are_found_and_marked(rt: HostRuntime) -> Result<(), Fail> {
    let alloc = rt.alloc();
    let side = a_side(alloc)?;
    let mut list = LabelList::new(alloc, &side);
    let forth = list.add(&label_of(alloc, &side, FORTH)?)?;
    let back = list.add(&label_of(alloc, &side, BACK)?)?;
    assert_eq!(rt; list.len(), 2);
    assert_eq!(rt; list.id_of(&[BACK]), Some(back));
    assert_eq!(rt; list.id_of(&[FORTH, BACK]), None);
    assert_eq!(rt; list.brief(back).start, 1);
    assert_eq!(rt; list.restore(alloc, back)?.last(), BACK);
    list.set_state(forth, State::Retired { by: back });
    assert!(rt; !list.lives(forth) && list.lives(back));
    assert!(rt; *list.path(forth) == *[FORTH].as_slice());
    assert_eq!(rt; list.side().cut(), 4);
    Ok(())
}

// Two lists of four numbers that have one key: with the numbers of the one less those of the other as digits to the base
// `KEY_FACTOR`, a multiple of 2^64 is written.
const ONE: [Directed; 4] = [
    Directed(23_789),
    Directed(0),
    Directed(31_644),
    Directed(23_248),
];

const OTHER: [Directed; 4] = [Directed(0), Directed(19_693), Directed(0), Directed(0)];

const BOTH: [Directed; 8] = [
    Directed(23_789),
    Directed(0),
    Directed(31_644),
    Directed(23_248),
    Directed(0),
    Directed(19_693),
    Directed(0),
    Directed(0),
];

#[test]
fn of_two_paths_with_one_key_each_is_found(rt: HostRuntime) -> Result<(), Fail> {
    let mut index = PathIndex::new(rt.alloc());
    index.add(&ONE)?;
    index.add(&OTHER)?;
    let records = [
        Record {
            from: 0,
            to: 4,
            state: State::Waiting,
            brief: Brief {
                last: Directed(0),
                start: 0,
                visited: DirectedSet::empty(),
            },
        },
        Record {
            from: 4,
            to: 8,
            state: State::Waiting,
            brief: Brief {
                last: Directed(0),
                start: 0,
                visited: DirectedSet::empty(),
            },
        },
    ];
    assert_eq!(rt; index.find(&BOTH, &records, &ONE), Some(0));
    assert_eq!(rt; index.find(&BOTH, &records, &OTHER), Some(1));
    Ok(())
}
