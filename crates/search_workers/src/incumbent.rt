//! The standing that a worker uses.

ghost use Rattle.std.specs.Prelude.{◌≡◌, ◌+◌, ◌-◌, ◌^◌, ℕ, length, min, IsTrue, IfOk, ◌↔◌};
ghost use Rattle.bound_tree.specs.declared.node.Kind.TheVariants.{Whole};
ghost use Rattle.bound_tree.specs.Close.{IsExact, IsAtLeast};
ghost use Rattle.incumbent_board.specs.History.{MayStand};
ghost use Rattle.incumbent_board.specs.Boards.{IsSeatOf, IsSameSeat};
ghost use Rattle.search_workers.specs.Incumbents.{best_after, WasTold, Looked};

use belief_update::{Belief, prefix_value};
use bound_tree::{Kind, TreeNode};
use exact_parts::NoMemory;
use incumbent_board::{Board, BoardSeat};
use search_model::{Path, Scenario, Standing, better};
use std::alloc::Global;
use std::sync::Wait;

/// The standing that a worker uses, with its seat at the board, and a belief by which it computes the value of a path that
/// the board shows.
#[derive(Drop)]
pub struct Incumbent {
    pub standing: Standing,
    pub seat: BoardSeat,
    pub belief: Belief,
}

// Whether a standing is a path of the scenario with its exact value. Takes no memory.
fn is_exact(sc: &Scenario, belief: &mut Belief, standing: &Standing) -> bool
    requires { length belief.old.masses ≡ sc.now.cells }
    ensures exact { IsTrue result ↔ IsExact sc.now standing.now }
    ensures belief { length belief.new.masses ≡ sc.now.cells }
{
    if standing.path.len() != sc.horizon() as usize || !sc.is_legal(&standing.path) {
        return false;
    }
    prefix_value(sc, belief, &standing.path) == standing.value
}

impl Incumbent {
    /// The standing that a search begins with, and its seat at the board. Only this call takes memory.
    pub fn start(
        alloc: Global,
        sc: &Scenario,
        first: &Standing,
        seat: BoardSeat,
    ) -> Result<Incumbent, NoMemory>
        ensures standing { IfOk result (λ i. i.standing ≡ first.now) }
        ensures seat { IfOk result (λ i. i.seat ≡ seat) }
        ensures belief { IfOk result (λ i. length i.belief.masses ≡ sc.now.cells) }
    {
        Ok(Incumbent {
            standing: *first,
            seat,
            belief: Belief::start(alloc, sc)?,
        })
    }

    // Looks at the board.
    fn look<R: Wait>(&mut self, rt: &R, board: &Board) -> Standing
        requires { IsSeatOf board.now self.old.seat }
        ensures looked { Looked board.now.first self.old.seat result self.new.seat }
        ensures same { (self.new.standing ≡ self.old.standing) × (self.new.belief ≡ self.old.belief) }
    {
        board.look(rt, &mut self.seat)
    }

    /// Looks at the board. A better standing there is used from now on, if it's exact. May wait. Takes no memory.
    pub fn heed<R: Wait>(&mut self, rt: &R, sc: &Scenario, board: &Board)
        requires seat { IsSeatOf board.now self.old.seat }
        requires exact { IsExact sc.now self.old.standing }
        requires belief { length self.old.belief.masses ≡ sc.now.cells }
        ensures seat { IsSameSeat self.old.seat self.new.seat }
        ensures looks { self.new.seat.looks ≡ min (self.old.seat.looks + 1) (2 ^ 64 - 1) }
        ensures exact { IsExact sc.now self.new.standing }
        ensures up { IsAtLeast self.new.standing self.old.standing }
        ensures heeded { IsExact sc.now self.new.seat.shown → IsAtLeast self.new.standing self.new.seat.shown }
        ensures told { WasTold self.old.seat self.old.standing → WasTold self.new.seat self.new.standing }
        ensures belief { length self.new.belief.masses ≡ sc.now.cells }
    {
        let shown = self.look(rt, board);
        if better(&shown, &self.standing) && is_exact(sc, &mut self.belief, &shown) {
            self.standing = shown;
        }
    }

    /// A path that is better takes the place of the standing, and is offered to the board. May wait. Takes no memory.
    pub fn keep_better<R: Wait>(&mut self, rt: &R, board: &Board, node: &TreeNode)
        requires seat { IsSeatOf board.now self.old.seat }
        requires stands { (n : ℕ) → node.now.kind ≡ Whole n →
            MayStand board.now.first (record { path = node.now.prefix; value = n }) }
        ensures seat { IsSameSeat self.old.seat self.new.seat }
        ensures looks { (self.new.seat.looks ≡ self.old.seat.looks) × (self.new.seat.shown ≡ self.old.seat.shown) }
        ensures standing { self.new.standing ≡ best_after self.old.standing node.now.prefix node.now.kind }
        ensures told { WasTold self.old.seat self.old.standing → WasTold self.new.seat self.new.standing }
        ensures belief { self.new.belief ≡ self.old.belief }
    {
        if let Kind::Whole(value) = node.kind {
            self.offer_if_better(rt, board, &node.prefix, value);
        }
    }

    /// The same of a path with its value. May wait. Takes no memory.
    pub fn offer_if_better<R: Wait>(&mut self, rt: &R, board: &Board, path: &Path, value: u128)
        requires seat { IsSeatOf board.now self.old.seat }
        requires stands { MayStand board.now.first (record { path = path.now; value = value }) }
        ensures seat { IsSameSeat self.old.seat self.new.seat }
        ensures looks { (self.new.seat.looks ≡ self.old.seat.looks) × (self.new.seat.shown ≡ self.old.seat.shown) }
        ensures standing { self.new.standing ≡ best_after self.old.standing path.now (Whole value) }
        ensures told { WasTold self.old.seat self.old.standing → WasTold self.new.seat self.new.standing }
        ensures belief { self.new.belief ≡ self.old.belief }
    {
        let whole = Standing { path: *path, value };
        if better(&whole, &self.standing) {
            self.standing = whole;
            let _answer = board.offer(rt, &mut self.seat, whole);
        }
    }
}
