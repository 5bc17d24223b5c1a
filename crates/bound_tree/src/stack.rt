//! The stack of expected prefixes, the next one on top.

ghost use Rattle.std.specs.Prelude.{◌≡◌, ◌+◌, ◌<◌, ◌≤◌, ◌++◌, ◌∷◌, [], length, reverse, vec_len, vec_capacity, IfSome, IfNone};
ghost use Rattle.search_model.specs.Legal.{IsLegal};
ghost use Rattle.bound_tree.specs.Accepts.{children_by, expected_by};

use crate::node::Kind;
use search_model::{Path, Scenario};

/// Puts a prefix on a stack that has room.
pub fn push_prefix(stack: &mut Vec<Path>, prefix: Path)
    requires { vec_len stack.old < vec_capacity stack.old }
    ensures items { stack.new.items ≡ stack.old.items ++ prefix ∷ [] }
    ensures capacity { vec_capacity stack.old ≤ vec_capacity stack.new }
    ensures len { vec_len stack.new ≡ vec_len stack.old + 1 }
{
    match stack.push(prefix) {
        Ok(()) => {}
        Err(_) => unreachable!(),
    }
}

/// Takes the prefix on top.
#[tactic(auto, using(crate::proofs::Rooms::popped))]
pub fn pop_prefix(stack: &mut Vec<Path>) -> Option<Path>
    ensures some { IfSome result (λ q. reverse stack.old.items ≡ q ∷ reverse stack.new.items) }
    ensures none { IfNone result ((stack.old.items ≡ []) × (stack.new.items ≡ [])) }
    ensures capacity { vec_capacity stack.new ≡ vec_capacity stack.old }
{
    stack.pop()
}

/// A prefix with one position more.
pub fn extended(prefix: &Path, d: u8) -> Path
    requires { length prefix.now < 32 }
    ensures { result ≡ prefix.now ++ d ∷ [] }
{
    let mut child = *prefix;
    child.push(d);
    child
}

/// Puts the children of a prefix by these moves on a stack that has room, the first on top.
pub fn push_children(stack: &mut Vec<Path>, prefix: &Path, moves: &[u8])
    requires shorter { 0 < length moves.now → length prefix.now < 32 }
    requires room { vec_len stack.old + length moves.now ≤ vec_capacity stack.old }
    ensures items { stack.new.items ≡ stack.old.items ++ reverse (children_by prefix.now moves.now) }
    ensures capacity { vec_capacity stack.old ≤ vec_capacity stack.new }
{
    for i in (0..moves.len()).rev() {
        push_prefix(stack, extended(prefix, moves[i]));
    }
}

/// Puts on the stack what a record makes expected.
#[tactic(auto, using(search_model::proofs::Children::few_moves, crate::proofs::Rooms::pushed_back))]
pub fn push_expected(stack: &mut Vec<Path>, sc: &Scenario, prefix: &Path, kind: &Kind)
    requires legal { IsLegal sc.now prefix.now }
    requires short { kind.now ≡ Kind.Branch → length prefix.now < sc.now.horizon }
    requires room { kind.now ≡ Kind.Branch → vec_len stack.old + 64 ≤ vec_capacity stack.old }
    ensures items { reverse stack.new.items ≡ expected_by sc.now prefix.now kind.now ++ reverse stack.old.items }
    ensures capacity { vec_capacity stack.old ≤ vec_capacity stack.new }
{
    match kind {
        Kind::Branch => {
            push_children(stack, prefix, sc.moves_after(prefix));
        }
        Kind::Whole(_)
        | Kind::Mean(_)
        | Kind::Tangent(..)
        | Kind::Edge(_)
        | Kind::Exchange(..)
        | Kind::TwoLooks(_) => {}
    }
}
