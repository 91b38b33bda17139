//! An index of the paths of labels.

ghost use Rattle.std.specs.Prelude.{◌≡◌, ◌≢◌, ℕ, ◌+◌, ◌*◌, ◌%◌, ◌^◌, ◌<◌, ◌≤◌, ◌↔◌, List, [], ◌∷◌, ◌++◌, length, IsTrue, OnOk, OnErr, MatchOption};
ghost use Rattle.std.specs.List.{All};
ghost use Rattle.label.specs.declared.limits.TheConstants.{MAX_LISTED};
ghost use Rattle.label_list.specs.Keys.{key_of, path_at, IsIndexOf};
ghost use Rattle.label_list.specs.Records.{paths_in, path_in, IsWithin};

use crate::record::Record;
use crate::room::put;
use label::MAX_LISTED;
use std::alloc::{AllocError, Global};
use std::collections::HashMap;
use strip_model::Directed;

/// What a key is multiplied with before the next number is added.
pub(crate) const KEY_FACTOR: u64 = 0x9e37_79b9_7f4a_7c15;

/// An index of the paths of labels, which are known by their ids, from 0 on. It keeps no path: it finds by a key the labels
/// whose paths may be the one. A look-up takes time of the order of the path's length. Where somebody chose many paths with
/// one key it goes over all of these, and ends as well.
#[derive(Drop)]
pub(crate) struct PathIndex {
    // For each key the last label whose path has it.
    last: HashMap<u64, u32>,
    // For each label the last label before it whose path has the same key.
    before: Vec<Option<u32>>,
}

impl PathIndex {
    /// The index of no path. It takes no memory.
    pub(crate) fn new(alloc: Global) -> PathIndex
        ensures { IsIndexOf [] result }
    {
        PathIndex {
            last: HashMap::new(alloc),
            before: Vec::new(alloc),
        }
    }

    /// The path of one more label. Want of memory changes nothing.
    pub(crate) fn add(&mut self, path: &[Directed]) -> Result<(), AllocError>
        requires { length self.old.before.items < MAX_LISTED }
        ensures added { OnOk result ((paths : List (List ℕ)) → IsIndexOf paths self.old → IsIndexOf (paths ++ path.now ∷ []) self.new) }
        ensures unchanged { OnErr result ((paths : List (List ℕ)) → IsIndexOf paths self.old → IsIndexOf paths self.new) }
    {
        self.before.reserve(1)?;
        let id = self.before.len() as u32;
        let before = self.last.insert(path_key(path), id)?;
        put(&mut self.before, before);
        Ok(())
    }

    /// The last label that has the path.
    pub(crate) fn find(
        &self,
        steps: &[Directed],
        records: &[Record],
        path: &[Directed],
    ) -> Option<u32>
        requires within { All (IsWithin steps.now) records.now }
        requires index { IsIndexOf (paths_in steps.now records.now) self.now }
        ensures { MatchOption result ((k : ℕ) → k < length records.now → path_at (paths_in steps.now records.now) k ≢ path.now)
            (λ id. (id < length records.now) × (path_at (paths_in steps.now records.now) id ≡ path.now)) }
    {
        let mut place = self.last.get(&path_key(path)).copied();
        'places: while let Some(id) = place {
            if are_same(path_of(steps, &records[id as usize]), path) {
                return Some(id);
            }
            place = self.before[id as usize];
        }
        None
    }
}

/// The path of a label.
pub(crate) fn path_of<'a>(steps: &'a [Directed], label: &Record) -> &'a [Directed]
    requires { IsWithin steps.now label.now }
    ensures { result.now ≡ path_in steps.entry.now label.now }
{
    &steps[label.from..label.to]
}

// The key of a path.
#[tactic(auto, unfolding(crate::specs::Keys::key_of))]
fn path_key(path: &[Directed]) -> u64
    ensures { result ≡ key_of path.now }
{
    let mut key = 0u64;
    for x in path {
        key = key.wrapping_mul(KEY_FACTOR).wrapping_add(u64::from(x.0));
    }
    key
}

// Whether two paths are the same.
fn are_same(path: &[Directed], other: &[Directed]) -> bool
    ensures { IsTrue result ↔ (path.now ≡ other.now) }
{
    path == other
}
