//! One worker's kit.

ghost use Rattle.std.specs.Prelude.{◌≡◌, ◌≢◌, ◌+◌, ◌<◌, ◌≤◌, ◌++◌, ◌∷◌, ◌↔◌, [], length, map, Some, IsErr, IsNone, IsPermutation, OnOk, IfErr, IfSome, IfNone, slice_get};
ghost use Rattle.crossbeam_deque.specs.Handles.{view as known, worker_view, worker_deque, stealer_deque, worker_flavor, worker_port, worker_capacity, worker_index};

use crate::deque::{Own, ROOM, put_task, take_task};
use crate::theft::{Theft, misses_after, rob_at};
use crate::victim::{Rest, Victim};
use std::marker::Model;

/// One worker's end of its own deque, and a thief's end of each other deque of the pool.
///
/// Contracts see the deques of the pool, the kit's place among them, what it put into its own deque and took from each
/// (`put_of`, `taken_of`), and how many of its steals in a row got no task.
#[derive(Drop)]
pub struct Kit<T: Drop> {
    own: Own<T>,
    before: Vec<Victim<T>>,
    after: Vec<Victim<T>>,
    puts: u64,
    misses: u64,
}

impl<T: Drop> Model for Kit<T> {
    ghost use Rattle.std.specs.Prelude.{◌≡◌, ◌+◌, ◌≤◌, ◌++◌, ◌∷◌, map, length};
    ghost use Rattle.crossbeam_deque.specs.Handles.{view as known, worker_view, worker_deque, stealer_deque, worker_flavor, worker_port, worker_capacity, worker_index};
    ghost use Rattle.steal_pool.specs.Kits.{KitView};

    ghost Value = { KitView T };

    ghost view = { λ k. record {
      pool = map (λ v. stealer_deque v.thief) k.before.items ++ worker_deque k.own ∷
          map (λ v. stealer_deque v.thief) k.after.items;
      place = length k.before.items;
      hands = map (λ v. known v.pass) k.before.items ++ worker_view k.own ∷ map (λ v. known v.pass) k.after.items;
      misses = k.misses;
    } };

    ghost invariant = { λ k. record {
      fifo : worker_flavor k.own ≡ 0;
      port : worker_port k.own ≡ 0;
      room : 4096 ≤ worker_capacity k.own;
      index : worker_index k.own ≤ k.puts;
      puts : k.puts ≡ length (worker_view k.own).put;
      few_puts : k.puts ≤ 4096;
      passes : (worker_view k.own).passes + (length k.before.items + length k.after.items) ≡ 16;
      few : length k.before.items + length k.after.items ≤ 15;
    } };
}

impl<T: Drop> Kit<T> {
    ghost use Rattle.steal_pool.specs.Rule.{FirstAtOneMoment, EmptyAtOneMoment};
    ghost use Rattle.steal_pool.specs.Kits.{hand_at, put_of, taken_of, TookOne};
    ghost use Rattle.steal_pool.specs.Thefts.{Steals, IfGot, OnEmpty, OnNoTask, misses_after as misses_after_lem};

    /// Its place in the pool, counted from 0.
    pub fn place(&self) -> u32
        ensures value { result ≡ self.now.place }
        ensures within { result < length self.now.pool }
        ensures few { length self.now.pool ≤ 16 }
    {
        self.before.len() as u32
    }

    /// How many kits the pool has, 1 to 16.
    pub fn workers(&self) -> u32
        ensures { result ≡ length self.now.pool }
    {
        (self.before.len() + 1 + self.after.len()) as u32
    }

    /// Puts a task last into the own deque. It is handed back exactly where the kit has put 4,096 tasks before. Takes no
    /// memory.
    pub fn put(&mut self, task: T) -> Result<(), T>
        ensures put { OnOk result (put_of self.new ≡ put_of self.old ++ task ∷ []) }
        ensures taken { taken_of self.new ≡ taken_of self.old }
        ensures same { (self.new.pool ≡ self.old.pool) × (self.new.place ≡ self.old.place) ×
            (self.new.misses ≡ self.old.misses) }
        ensures back { IfErr result (λ x. (x ≡ task) × (self.new ≡ self.old)) }
        ensures full { IsErr result ↔ (length (put_of self.old) ≡ 4096) }
    {
        if self.puts == ROOM as u64 {
            return Err(task);
        }
        match put_task(&mut self.own, task) {
            Ok(()) => {
                self.puts += 1;
                Ok(())
            }
            Err(_) => unreachable!(),
        }
    }

    /// Takes the first task of the own deque. `None` comes only where that was empty at one moment of the call, and in a
    /// pool of one exactly where the tasks that the kit put are, up to order, those that it took; there the tasks come in
    /// the order in which they were put. Takes no memory.
    pub fn own(&mut self) -> Option<T>
        ensures same { (self.new.pool ≡ self.old.pool) × (self.new.place ≡ self.old.place) }
        ensures took { IfSome result (λ x. TookOne self.old x self.new) }
        ensures first { IfSome result (λ x. FirstAtOneMoment (hand_at self.old self.old.place) (x ∷ [])) }
        ensures misses { self.new.misses ≡ self.old.misses }
        ensures none { IfNone result (self.new ≡ self.old) }
        ensures empty { IfNone result (EmptyAtOneMoment (hand_at self.old self.old.place)) }
        ensures alone { length self.old.pool ≡ 1 → IsNone result ↔ IsPermutation (put_of self.old) (taken_of self.old) }
        ensures alone_first { length self.old.pool ≡ 1 → IfSome result (λ x.
            slice_get (put_of self.old) (length (taken_of self.old)) ≡ Some x) }
    {
        let Some(task) = take_task(&mut self.own) else {
            return None;
        };
        Some(task)
    }

    /// Tries once to take the first task of another worker's deque. `Empty` comes only where that was empty at one moment
    /// of the call. `Beaten` says nothing. Takes no memory.
    pub fn steal(&mut self, victim: u32) -> Theft<T>
        requires place { victim < length self.old.pool }
        requires other { victim ≢ self.old.place }
        ensures same { (self.new.pool ≡ self.old.pool) × (self.new.place ≡ self.old.place) }
        ensures took { IfGot result (λ x. TookOne self.old x self.new) }
        ensures first { IfGot result (λ x. FirstAtOneMoment (hand_at self.old victim) (x ∷ [])) }
        ensures misses { self.new.misses ≡ misses_after_lem self.old.misses result }
        ensures none { OnNoTask result (self.new ≡ record self.old { misses = self.new.misses }) }
        ensures empty { OnEmpty result (EmptyAtOneMoment (hand_at self.old victim)) }
    {
        let at = victim as usize;
        let place = self.before.len();
        if at < place {
            self.steal_before(at)
        } else {
            self.steal_after(at - place - 1)
        }
    }

    // A steal at a place before the own one.
    fn steal_before(&mut self, at: usize) -> Theft<T>
        requires { at < self.old.place }
        ensures { Steals self.old at result self.new }
    {
        let theft = rob_at(&mut self.before, at);
        self.misses = misses_after(self.misses, &theft);
        theft
    }

    // A steal at a place after the own one, counted from there.
    fn steal_after(&mut self, at: usize) -> Theft<T>
        requires { self.old.place + 1 + at < length self.old.pool }
        ensures { Steals self.old (self.old.place + 1 + at) result self.new }
    {
        let theft = rob_at(&mut self.after, at);
        self.misses = misses_after(self.misses, &theft);
        theft
    }
}

ghost use Rattle.steal_pool.specs.News.{IsNewOwn};

/// Makes a kit of a new deque and of its victims.
pub fn assemble<T: Drop>(own: Own<T>, rest: Rest<T>) -> Kit<T>
    requires new { IsNewOwn own }
    requires passes { (worker_view own).passes + (length rest.before.items + length rest.after.items) ≡ 16 }
    requires few { length rest.before.items + length rest.after.items ≤ 15 }
    ensures pool { result.pool ≡ robbed_deques rest.before.items ++ worker_deque own ∷ robbed_deques rest.after.items }
    ensures place { result.place ≡ length rest.before.items }
    ensures hands { result.hands ≡ robbed_hands rest.before.items ++ worker_view own ∷ robbed_hands rest.after.items }
    ensures misses { result.misses ≡ 0 }
{
    let Rest { before, after } = rest;
    Kit {
        own,
        before,
        after,
        puts: 0,
        misses: 0,
    }
}

ghost use Rattle.steal_pool.specs.Pools.{IsOwner, robbed_deques, robbed_hands};

/// Takes a kit apart.
pub fn part<T: Drop>(kit: Kit<T>) -> (Own<T>, Rest<T>)
    ensures pool { kit.pool ≡ robbed_deques result.1.before.items ++
        worker_deque result.0 ∷ robbed_deques result.1.after.items }
    ensures place { kit.place ≡ length result.1.before.items }
    ensures hands { kit.hands ≡ robbed_hands result.1.before.items ++
        worker_view result.0 ∷ robbed_hands result.1.after.items }
    ensures owner { IsOwner result.0 }
    ensures passes { (worker_view result.0).passes + (length result.1.before.items + length result.1.after.items) ≡ 16 }
    ensures few { length result.1.before.items + length result.1.after.items ≤ 15 }
{
    let Kit {
        own,
        before,
        after,
        puts: _,
        misses: _,
    } = kit;
    (own, Rest { before, after })
}
