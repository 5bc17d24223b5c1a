//! The prefixes that are expected where the text leaves them out.

ghost use Rattle.std.specs.Prelude.{◌≡◌, ◌↔◌, ◌<◌, ◌≤◌, ◌∷◌, [], ◌++◌, length, reverse, vec_capacity, IsTrue, IsFalse, IfOk, All};
ghost use Rattle.search_model.specs.Legal.{IsLegal};
ghost use Rattle.bound_tree.specs.Places.{opened_by, first_of, expected_behind};
ghost use Rattle.bound_tree.specs.Gaps.{shape_of_kind};
ghost use Rattle.bound_tree.specs.Room.{HasRoom};
ghost use Rattle.tree_format.specs.Placing.{IsTaken, IsOutOfPlace};

use bound_tree::{GapKind, Kind, TreeNode, pop_prefix, push_expected, push_prefix};
use exact_parts::NoMemory;
use search_model::{Path, Scenario};
use std::alloc::Global;
use std::marker::Model;

// Room for the most prefixes that can be expected at once.
const ROOM: usize = 2_048;

/// The prefixes that are expected, the next one first. Only the call that makes the list takes memory.
#[derive(Drop)]
pub struct Places {
    stack: Vec<Path>,
}

impl Model for Places {
    ghost use Rattle.std.specs.Prelude.{◌≤◌, ℕ, List, reverse, vec_capacity};
    ghost use Rattle.bound_tree.specs.Room.{HasRoom};

    ghost Value = { List (List ℕ) };

    ghost view = { λ s. reverse s.stack.items };

    ghost invariant = { λ s. (2048 ≤ vec_capacity s.stack) × HasRoom (reverse s.stack.items) };
}

// Whether a branch at this prefix has children.
fn has_children(sc: &Scenario, prefix: &Path) -> bool
    ensures { IsTrue result ↔ ((length prefix.now < sc.now.horizon) × IsLegal sc.now prefix.now) }
{
    prefix.len() < sc.horizon() as usize && sc.is_legal(prefix)
}

// Puts on the stack what a record of this kind makes expected, where its prefix is legal.
fn open(stack: &mut Vec<Path>, sc: &Scenario, prefix: &Path, kind: &Kind)
    requires room { HasRoom (prefix.now ∷ reverse stack.old.items) }
    requires capacity { 2048 ≤ vec_capacity stack.old }
    ensures items { IsLegal sc.now prefix.now →
        reverse stack.new.items ≡ opened_by sc.now prefix.now kind.now ++ reverse stack.old.items }
    ensures room { HasRoom (reverse stack.new.items) }
    ensures capacity { 2048 ≤ vec_capacity stack.new }
{
    sc.recall_sound();
    if has_children(sc, prefix) {
        push_expected(stack, sc, prefix, kind);
    }
}

// Takes the prefix on top, at which a record of this kind stands, and puts on the stack what the record makes expected.
fn pass(stack: &mut Vec<Path>, sc: &Scenario, kind: &Kind)
    requires room { HasRoom (reverse stack.old.items) }
    requires capacity { 2048 ≤ vec_capacity stack.old }
    ensures items { All (IsLegal sc.now) (reverse stack.old.items) →
        reverse stack.new.items ≡ expected_behind sc.now (reverse stack.old.items) kind.now }
    ensures room { HasRoom (reverse stack.new.items) }
    ensures capacity { 2048 ≤ vec_capacity stack.new }
{
    if let Some(prefix) = pop_prefix(stack) {
        open(stack, sc, &prefix, kind);
    }
}

impl Places {
    /// The empty prefix alone is expected.
    pub fn start(alloc: Global) -> Result<Places, NoMemory>
        ensures { IfOk result (λ places. places ≡ [] ∷ []) }
    {
        let mut stack = Vec::with_capacity(alloc, ROOM)?;
        push_prefix(&mut stack, Path::empty());
        Ok(Places { stack })
    }

    /// The prefix that is expected next.
    pub fn first(&self) -> Option<Path>
        ensures { result ≡ first_of self.now }
    {
        self.stack.last().copied()
    }

    // Goes on behind a record of this kind at the prefix that was expected next, which is legal.
    fn go_on_behind(&mut self, sc: &Scenario, kind: &Kind)
        ensures { All (IsLegal sc.now) self.old → self.new ≡ expected_behind sc.now self.old kind.now }
    {
        pass(&mut self.stack, sc, kind);
    }

    /// Goes on behind a node of this kind at the prefix that was expected next, which is legal.
    pub fn go_on(&mut self, sc: &Scenario, kind: &GapKind)
        ensures { All (IsLegal sc.now) self.old → self.new ≡ expected_behind sc.now self.old (shape_of_kind kind.now) }
    {
        match kind {
            GapKind::Closed(kind) => self.go_on_behind(sc, kind),
            GapKind::Waiting(_) => self.go_on_behind(sc, &Kind::Mean(0)),
        }
    }

    /// Goes on behind a record, where it has the prefix that is expected next; whether it has.
    pub fn takes(&mut self, sc: &Scenario, node: &TreeNode) -> bool
        ensures yes { IsTrue result → IsTaken sc.now self.old node.now self.new }
        ensures no { IsFalse result → IsOutOfPlace sc.now self.old node.now }
    {
        match self.first() {
            Some(prefix) if prefix.cells() == node.prefix.cells() => {
                self.go_on_behind(sc, &node.kind);
                true
            }
            _ => false,
        }
    }
}
