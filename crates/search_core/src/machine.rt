//! The machine.

ghost use Rattle.std.specs.Prelude.{◌≡◌, ◌↔◌, ◌<◌, ◌≤◌, ◌++◌, ◌∷◌, ◌+◌, ℕ, List, length, vec_len, vec_capacity, slice_get, Some, IfOk, OnOk, OnErr, IsErrOf};
ghost use Rattle.search_model.specs.Legal.{IsLegal};
ghost use Rattle.bound_tree.specs.Accepts.{children_by, expected_by};
ghost use Rattle.bound_tree.specs.Close.{IsExact};
ghost use Rattle.search_core.specs.Counts.{SameItems};
ghost use Rattle.search_core.specs.Balance.{IsBalanced};
ghost use Rattle.search_core.specs.Steps.{started, IsAllowed, Goes, Steps, Answers, MissesPool, MissesHands, MissesStanding};

use crate::event::{CoreEvent, CoreFault};
use crate::lists::{place_of, take_out};
use bound_tree::{Kind, TreeNode, push_children, push_prefix};
use exact_parts::NoMemory;
use search_model::{Path, Scenario, Standing};
use std::alloc::{AllocError, Global};
use std::marker::Model;

/// The state of a search of one scenario: prefixes that wait for a worker, prefixes that workers hold, records, and the
/// standings that the records rest on. The order in the pool and in the hands is free; records and standings stand in the
/// order in which they came.
#[derive(Drop)]
pub struct CoreState {
    pool: Vec<Path>,
    hands: Vec<Path>,
    records: Vec<TreeNode>,
    standings: Vec<Standing>,
}

impl Model for CoreState {
    ghost use Rattle.search_core.specs.Balance.{Core};

    ghost Value = { Core };

    ghost view = { λ c. record {
      pool = c.pool.items;
      hands = c.hands.items;
      records = c.records.items;
      standings =
          c.standings.items;
    } };
}

// Moves the prefix at a place of one list to another; without memory nothing changes.
fn go_over(from: &mut Vec<Path>, to: &mut Vec<Path>, place: usize) -> Result<(), AllocError>
    requires { place < length from.old.items }
    ensures done { OnOk result ((q : List ℕ) → slice_get from.old.items place ≡ Some q →
        Goes q from.old.items from.new.items to.old.items to.new.items) }
    ensures kept { OnErr result ((from.new.items ≡ from.old.items) × (to.new.items ≡ to.old.items)) }
{
    to.reserve(1)?;
    let prefix = take_out(from, place);
    push_prefix(to, prefix);
    Ok(())
}

// The moves to the children that a record makes expected: those of a Branch.
fn moves_below<'a>(sc: &'a Scenario, node: &TreeNode) -> &'a [u8]
    requires { IsLegal sc.now node.now.prefix }
    ensures children { children_by node.now.prefix result.now ≡ expected_by sc.now node.now.prefix node.now.kind }
    ensures branch { 0 < length result.now → node.now.kind ≡ Kind.Branch }
{
    match node.kind {
        Kind::Branch => sc.moves_after(&node.prefix),
        Kind::Whole(_)
        | Kind::Mean(_)
        | Kind::Tangent(..)
        | Kind::Edge(_)
        | Kind::Exchange(..)
        | Kind::TwoLooks(_) => &[],
    }
}

// Puts children into a list in place of the prefix at a place; without memory nothing changes.
fn replace_held(hands: &mut Vec<Path>, place: usize, prefix: &Path, moves: &[u8])
    requires held { slice_get hands.old.items place ≡ Some prefix.now }
    requires shorter { 0 < length moves.now → length prefix.now < 32 }
    requires room { vec_len hands.old + length moves.now ≤ vec_capacity hands.old }
    ensures { SameItems (hands.old.items ++ children_by prefix.now moves.now) (prefix.now ∷ hands.new.items) }
{
    take_out(hands, place);
    push_children(hands, prefix, moves);
}

impl CoreState {
    /// The start: nothing is pooled, the empty prefix is held, there is no record, and one standing is known, a path of the
    /// scenario with its exact value.
    pub fn start(alloc: Global, sc: &Scenario, first: Standing) -> Result<CoreState, NoMemory>
        requires { IsExact sc.now first }
        ensures started { IfOk result (λ c. c ≡ started first) }
        ensures balanced { IfOk result (λ c. IsBalanced sc.now c) }
    {
        sc.recall_sound();
        let mut hands = Vec::new(alloc);
        hands.push(Path::empty())?;
        let mut standings = Vec::new(alloc);
        standings.push(first)?;
        Ok(CoreState {
            pool: Vec::new(alloc),
            hands,
            records: Vec::new(alloc),
            standings,
        })
    }

    /// The prefixes that wait for a worker, in no order.
    pub fn pool(&self) -> &[Path]
        ensures { result.now ≡ self.now.pool }
    {
        &self.pool
    }

    /// The prefixes that workers hold, in no order.
    pub fn hands(&self) -> &[Path]
        ensures { result.now ≡ self.now.hands }
    {
        &self.hands
    }

    /// The records, in the order in which they were made.
    pub fn records(&self) -> &[TreeNode]
        ensures { result.now ≡ self.now.records }
    {
        &self.records
    }

    /// The standings, in the order in which they were learnt.
    pub fn standings(&self) -> &[Standing]
        ensures { result.now ≡ self.now.standings }
    {
        &self.standings
    }

    // A prefix goes from the hands to the pool.
    fn put(&mut self, sc: &Scenario, prefix: &Path) -> Result<(), CoreFault>
        ensures { Answers sc.now self.old (CoreEvent.Put prefix.now) result self.new }
    {
        let Some(place) = place_of(&self.hands, prefix) else {
            return Err(CoreFault::NotHeld(*prefix));
        };
        go_over(&mut self.hands, &mut self.pool, place)?;
        Ok(())
    }

    // A prefix goes from the pool to the hands.
    fn take(&mut self, sc: &Scenario, prefix: &Path) -> Result<(), CoreFault>
        ensures { Answers sc.now self.old (CoreEvent.Take prefix.now) result self.new }
    {
        let Some(place) = place_of(&self.pool, prefix) else {
            return Err(CoreFault::NotPooled(*prefix));
        };
        go_over(&mut self.pool, &mut self.hands, place)?;
        Ok(())
    }

    // A prefix that is held is closed under the standing at place `j`.
    fn close(&mut self, sc: &Scenario, node: &TreeNode, j: usize) -> Result<(), CoreFault>
        requires balanced { IsBalanced sc.now self.old }
        requires allowed { IsAllowed sc.now self.old (CoreEvent.Close node.now j) }
        ensures { Answers sc.now self.old (CoreEvent.Close node.now j) result self.new }
    {
        sc.recall_sound();
        let Some(place) = place_of(&self.hands, &node.prefix) else {
            return Err(CoreFault::NotHeld(node.prefix));
        };
        if j >= self.standings.len() {
            return Err(CoreFault::NoStanding(j));
        }
        let moves = moves_below(sc, node);
        self.hands.reserve(moves.len())?;
        self.records.push(TreeNode {
            prefix: node.prefix,
            kind: node.kind,
        })?;
        replace_held(&mut self.hands, place, &node.prefix, moves);
        Ok(())
    }

    // A path with its exact value becomes known.
    fn learn(&mut self, sc: &Scenario, standing: &Standing) -> Result<(), CoreFault>
        ensures { Answers sc.now self.old (CoreEvent.Learn standing.now) result self.new }
    {
        self.standings.push(*standing)?;
        Ok(())
    }

    // One event.
    fn answer(&mut self, sc: &Scenario, event: &CoreEvent) -> Result<(), CoreFault>
        requires balanced { IsBalanced sc.now self.old }
        requires allowed { IsAllowed sc.now self.old event.now }
        ensures { Answers sc.now self.old event.now result self.new }
    {
        match event {
            CoreEvent::Put(prefix) => self.put(sc, prefix),
            CoreEvent::Take(prefix) => self.take(sc, prefix),
            CoreEvent::Close(node, j) => self.close(sc, node, *j),
            CoreEvent::Learn(standing) => self.learn(sc, standing),
        }
    }

    /// One event, with the scenario that the state was started for.
    ///
    /// A `Close` whose prefix is held and whose standing is there closes the prefix as that standing has it, and a `Learn`
    /// has a path of the scenario with its exact value. Where an event is refused nothing changes: `NotPooled` exactly where
    /// the prefix of a `Take` isn't pooled, `NotHeld` exactly where the prefix of a `Put` or a `Close` isn't held,
    /// `NoStanding` exactly where the prefix of a `Close` is held and its place isn't among the standings, and `NoMemory`
    /// where memory ran out.
    pub fn step(&mut self, sc: &Scenario, event: CoreEvent) -> Result<(), CoreFault>
        requires balanced { IsBalanced sc.now self.old }
        requires allowed { IsAllowed sc.now self.old event }
        ensures done { OnOk result (Steps sc.now self.old event self.new) }
        ensures balanced { IsBalanced sc.now self.new }
        ensures kept { OnErr result (self.new ≡ self.old) }
        ensures not_pooled { (q : List ℕ) → IsErrOf result (CoreFault.NotPooled q) ↔ MissesPool self.old event q }
        ensures not_held { (q : List ℕ) → IsErrOf result (CoreFault.NotHeld q) ↔ MissesHands self.old event q }
        ensures no_standing { (j : ℕ) → IsErrOf result (CoreFault.NoStanding j) ↔ MissesStanding self.old event j }
    {
        sc.recall_sound();
        self.answer(sc, &event)
    }
}
