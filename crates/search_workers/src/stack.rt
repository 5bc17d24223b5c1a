//! A worker's private stack.

ghost use Rattle.std.specs.Prelude.{◌≡◌, ◌+◌, ◌<◌, ◌≤◌, ◌++◌, ◌∷◌, [], ◌↔◌, length, reverse, IfOk, IfSome, IfNone, IsTrue};
ghost use Rattle.bound_tree.specs.Accepts.{children_by};

use bound_tree::{push_children, push_prefix};
use exact_parts::NoMemory;
use search_model::Path;
use std::alloc::Global;
use std::marker::Model;

// How many prefixes a private stack has room for.
const ROOM: usize = 2048;

/// A worker's private stack of prefixes. The room for 2,048 of them is taken at the start, and no more is ever needed.
///
/// Contracts see the prefixes, the last of which is taken first.
#[derive(Drop)]
pub struct Stack {
    prefixes: Vec<Path>,
}

impl Model for Stack {
    ghost use Rattle.std.specs.Prelude.{List, ℕ, ◌≤◌, vec_capacity};

    ghost Value = { List (List ℕ) };

    ghost view = { λ s. s.prefixes.items };

    ghost invariant = { λ s. 2048 ≤ vec_capacity s.prefixes };
}

impl Stack {
    /// An empty stack. Only this call takes memory.
    pub fn new(alloc: Global) -> Result<Stack, NoMemory>
        ensures { IfOk result (λ s. s ≡ []) }
    {
        Ok(Stack {
            prefixes: Vec::with_capacity(alloc, ROOM)?,
        })
    }

    /// Whether there is no prefix.
    pub fn is_empty(&self) -> bool
        ensures { IsTrue result ↔ (self.now ≡ []) }
    {
        self.prefixes.is_empty()
    }

    /// Puts a prefix last.
    pub fn push(&mut self, prefix: Path)
        requires { length self.old < 2048 }
        ensures { self.new ≡ self.old ++ prefix ∷ [] }
    {
        push_prefix(&mut self.prefixes, prefix);
    }

    /// Puts the children of a prefix by these moves last, so that the first of them is taken first.
    pub fn push_children(&mut self, prefix: &Path, moves: &[u8])
        requires short { length prefix.now < 32 }
        requires room { length self.old + length moves.now ≤ 2048 }
        ensures { self.new ≡ self.old ++ reverse (children_by prefix.now moves.now) }
    {
        push_children(&mut self.prefixes, prefix, moves);
    }

    /// Takes the last prefix.
    pub fn pop(&mut self) -> Option<Path>
        ensures some { IfSome result (λ prefix. self.old ≡ self.new ++ prefix ∷ []) }
        ensures none { IfNone result ((self.old ≡ []) × (self.new ≡ [])) }
    {
        self.prefixes.pop()
    }

    /// The prefixes.
    pub fn into_prefixes(self) -> Vec<Path>
        ensures { result.items ≡ self }
    {
        let Stack { prefixes } = self;
        prefixes
    }
}
