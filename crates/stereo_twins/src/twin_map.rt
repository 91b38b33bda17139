//! The twins of an instance's strips.
ghost use Rattle.std.specs.Prelude.{◌≡◌, ℕ, ◌+◌, ◌/◌, ◌<◌, ◌≤◌, length, true, OnOk, IfOk, IfErr};
ghost use Rattle.std.specs.Bool.{OnTrue, OnFalse};
ghost use Rattle.strip_set.specs.Members.{has, has_strip, IsSet};
ghost use Rattle.stereo_twins.specs.Refusal.{IsCause, KeptBelow};
ghost use Rattle.stereo_twins.specs.Twins.{twin, TwinsExist, IsSound, AreOfOneRequest, Admits, Refuses, lacks_twin, is_open, is_need};

use crate::TwinRefusal;
use std::alloc::Global;
use std::marker::Model;
use strip_set::{DirectedSet, MAX_DIRECTED, MAX_STRIPS};

/// The twin of each strip, seen as the list with one entry a strip. The list keeps the rules of twins.
#[derive(Drop, Debug)]
pub struct TwinMap {
    twins: Vec<Option<u16>>,
}

impl Model for TwinMap {
    ghost use Rattle.std.specs.Prelude.{ℕ, List, Option};
    ghost use Rattle.stereo_twins.specs.Twins.{IsSound};

    ghost Value = { List (Option ℕ) };

    ghost view = { λ map. map.twins.items };

    ghost invariant = { λ map. IsSound map.twins.items };
}

impl TwinMap {
    /// A map of these twins: `twins` has the twin of each strip, and `requests` its request, both by strip.
    ///
    /// # Errors
    ///
    /// The least strip that breaks a rule is refused, with the first rule that it breaks: `SelfTwin` where it is its own
    /// twin, `OtherRequest` where its twin is of another request, `NotMutual` where the twin of its twin is another
    /// strip or none. `Memory` comes where there is no memory for a list that keeps the rules.
    pub fn new(
        alloc: Global,
        twins: &[Option<u16>],
        requests: &[u16],
    ) -> Result<TwinMap, TwinRefusal>
        requires lengths { length requests.now ≡ length twins.now }
        requires few { length twins.now ≤ MAX_STRIPS }
        requires exist { TwinsExist twins.now }
        ensures twins { IfOk result (λ map. map ≡ twins.now) }
        ensures sound { OnOk result (IsSound twins.now) }
        ensures requests { OnOk result (AreOfOneRequest twins.now requests.now) }
        ensures refusal { IfErr result (IsCause twins.now requests.now) }
    {
        for i in 0..twins.len() {
            check_strip(twins, requests, i as u16)?;
        }
        Ok(TwinMap {
            twins: Vec::from_slice(alloc, twins)?,
        })
    }

    /// How many strips there are.
    pub fn len(&self) -> u16
        ensures value { result ≡ length self.now }
        ensures sound { IsSound self.now }
    {
        self.twins.len() as u16
    }

    /// The twin of a strip.
    pub fn twin(&self, strip: u16) -> Option<u16>
        requires { strip < length self.now }
        ensures value { result ≡ twin self.now strip }
        ensures sound { IsSound self.now }
    {
        self.twins[strip as usize]
    }

    /// Whether directed strip `x` may join the path with these directed strips: its strip isn't there, and where its
    /// twin is there, it is there in the direction of `x`.
    pub fn admits(&self, set: DirectedSet, x: u16) -> bool
        requires strips { (y : ℕ) → has y set ≡ true → y / 2 < length self.now }
        requires strip { x / 2 < length self.now }
        ensures admitted { OnTrue result (Admits self.now set x) }
        ensures refused { OnFalse result (Refuses self.now set x) }
    {
        let twin = self.twin(x / 2);
        if set.strips().contains(x / 2) {
            return false;
        }
        match twin {
            Some(twin) => !set.contains(2 * twin + (1 - x % 2)),
            None => true,
        }
    }

    /// The members whose strip has a twin that isn't in the set, in either direction.
    pub fn open(&self, set: DirectedSet) -> DirectedSet
        requires { (y : ℕ) → has y set ≡ true → y / 2 < length self.now }
        ensures members { (y : ℕ) → has y result ≡ is_open self.now set y }
        ensures set { IsSet MAX_DIRECTED result }
    {
        let mut open = DirectedSet::empty();
        for x in set.iter() {
            if self.lacks_twin(set, x) {
                open = open.with(x);
            }
        }
        open
    }

    /// The twin of each member that has one, in the direction of that member.
    pub fn needs(&self, lone: DirectedSet) -> DirectedSet
        requires { (y : ℕ) → has y lone ≡ true → y / 2 < length self.now }
        ensures members { (y : ℕ) → has y result ≡ is_need self.now lone y }
        ensures set { IsSet MAX_DIRECTED result }
    {
        let mut needs = DirectedSet::empty();
        for x in lone.iter() {
            if let Some(twin) = self.twin(x / 2) {
                needs = needs.with(2 * twin + x % 2);
            }
        }
        needs
    }

    // Whether the strip of `x` has a twin that isn't in the set, in either direction.
    fn lacks_twin(&self, set: DirectedSet, x: u16) -> bool
        requires { x / 2 < length self.now }
        ensures { result ≡ lacks_twin self.now set x }
    {
        match self.twin(x / 2) {
            Some(twin) => !set.strips().contains(twin),
            None => false,
        }
    }
}

// Tests the rules at strip `i`, where each strip below it keeps them.
fn check_strip(twins: &[Option<u16>], requests: &[u16], i: u16) -> Result<(), TwinRefusal>
    requires strip { i < length twins.now }
    requires lengths { length requests.now ≡ length twins.now }
    requires exist { TwinsExist twins.now }
    requires below { KeptBelow twins.now requests.now i }
    ensures kept { OnOk result (KeptBelow twins.now requests.now (i + 1)) }
    ensures refusal { IfErr result (IsCause twins.now requests.now) }
{
    let Some(twin) = twins[i as usize] else {
        return Ok(());
    };
    if twin == i {
        return Err(TwinRefusal::SelfTwin { i });
    }
    if requests[twin as usize] != requests[i as usize] {
        return Err(TwinRefusal::OtherRequest { i });
    }
    if twins[twin as usize] != Some(i) {
        return Err(TwinRefusal::NotMutual { i });
    }
    Ok(())
}
