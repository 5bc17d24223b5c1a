//! The tables of greatest sums.

ghost use Rattle.std.specs.Prelude.{◌≡◌, ℕ, ◌+◌, ◌-◌, ◌*◌, ◌^◌, ◌<◌, ◌≤◌, List, length, drop, IfOk};
ghost use Rattle.search_model.specs.Order.{Starts};
ghost use Rattle.longest_walk.specs.Sums.{entry_at, highest_sum};
ghost use Rattle.search_model.specs.Reference.{greatest_sum, IsLeastBest};

use crate::near::Near;
use crate::rows::{append_least, fill_near_rows, fill_rows, greatest_at};
use exact_parts::NoMemory;
use search_grid::Grid;
use search_model::Path;
use std::alloc::Global;
use std::marker::Model;

/// Tables for the greatest sum of rewards over all continuations of a path, made once for a number of positions and of
/// periods, and filled anew for each path.
///
/// Rewards are a list with one row of positions for each period: the reward of period `t`, from 1 on, and position `q` stands
/// at place `(t - 1) * positions + q`.
#[derive(Drop)]
pub struct Walk {
    positions: u8,
    horizon: u32,
    from: u8,
    best: u128,
    // Per period and position, the greatest sum over the walks that are on that position in that period.
    sums: Vec<u128>,
}

impl Model for Walk {
    ghost use Rattle.longest_walk.specs.Tables.{Tables, IsTables};

    ghost Value = { Tables };

    ghost view = { λ w. record {
      positions = w.positions;
      horizon = w.horizon;
      from = w.from;
      best = w.best;
      sums =
          w.sums.items;
    } };

    ghost invariant = { λ w. IsTables (record
        { positions = w.positions; horizon = w.horizon; from = w.from; best = w.best; sums = w.sums.items }) };
}

impl Walk {
    ghost use Rattle.longest_walk.specs.Near.{AreNear};
    ghost use Rattle.longest_walk.specs.Tables.{IsFilled, HasNear, IsFilledNear};

    /// Tables for so many positions, 1 to 200, and so many periods, 1 to 32. Only this call takes memory.
    pub fn tables(alloc: Global, positions: u8, horizon: u32) -> Result<Walk, NoMemory>
        requires positions { (1 ≤ positions) × (positions ≤ 200) }
        requires horizon { (1 ≤ horizon) × (horizon ≤ 32) }
        ensures { IfOk result (λ walk. (walk.positions ≡ positions) × (walk.horizon ≡ horizon)) }
    {
        Ok(Walk {
            positions,
            horizon,
            from: 0,
            best: 0,
            sums: vec![in alloc; 0; horizon as usize * usize::from(positions)]?,
        })
    }

    /// Fills the tables for the walks from position `from` through the periods after `k`.
    ///
    /// The rewards of each period's best position may not sum to 2 ^ 127 or more over those periods.
    pub fn fill(&mut self, grid: &Grid, rewards: &[u128], from: u8, k: u32)
        requires positions { length grid.now ≡ self.old.positions }
        requires rewards { length rewards.now ≡ self.old.horizon * self.old.positions }
        requires from { from < self.old.positions }
        requires period { k < self.old.horizon }
        requires fits { let positions = self.old.positions in
            highest_sum positions (entry_at positions rewards.now) (self.old.horizon - k) (k + 1) < 2 ^ 127 }
        ensures filled { IsFilled self.new grid.now rewards.now from k }
        ensures positions { self.new.positions ≡ self.old.positions }
        ensures horizon { self.new.horizon ≡ self.old.horizon }
    {
        let after = k as usize;
        fill_rows(&mut self.sums, grid, rewards, self.horizon as usize, after);
        let row = after * usize::from(self.positions);
        self.best = greatest_at(&self.sums, row, grid.moves(from));
        self.from = from;
    }

    /// Fills the tables for the walks from position `from` through the periods after `k`, in each period for the positions
    /// that such a walk can be on. Only of these the rewards are read.
    ///
    /// The rewards of each period's best position may not sum to 2 ^ 127 or more over those periods.
    pub fn fill_near(&mut self, grid: &Grid, near: &Near, rewards: &[u128], from: u8, k: u32)
        requires positions { length grid.now ≡ self.old.positions }
        requires near { AreNear grid.now self.old.horizon near.now }
        requires rewards { length rewards.now ≡ self.old.horizon * self.old.positions }
        requires from { from < self.old.positions }
        requires period { k < self.old.horizon }
        requires fits { let positions = self.old.positions in let horizon = self.old.horizon in
            (r : ℕ → ℕ → ℕ) × HasNear grid.now positions horizon r from k rewards.now
            × (highest_sum positions r (horizon - k) (k + 1) < 2 ^ 127) }
        ensures filled { (r : ℕ → ℕ → ℕ)
            → HasNear grid.now self.old.positions self.old.horizon r from k rewards.now
            → IsFilledNear self.new grid.now r from k }
        ensures positions { self.new.positions ≡ self.old.positions }
        ensures horizon { self.new.horizon ≡ self.old.horizon }
    {
        let after = k as usize;
        let horizon = self.horizon as usize;
        fill_near_rows(&mut self.sums, grid, near, rewards, horizon, from, after);
        let first = after * usize::from(self.positions);
        self.best = greatest_at(&self.sums, first, grid.moves(from));
        self.from = from;
    }

    /// The greatest sum of rewards over all walks that the tables are filled for.
    pub fn greatest(&self) -> u128
        ensures all { let walk = self.now in
            (rows : List (List ℕ)) (rewards : List ℕ) (from k : ℕ) → IsFilled walk rows rewards from k
            → result ≡ greatest_sum rows (entry_at walk.positions rewards) (walk.horizon - k) (k + 1) from }
        ensures near { let walk = self.now in
            (rows : List (List ℕ)) (r : ℕ → ℕ → ℕ) (from k : ℕ) → IsFilledNear walk rows r from k
            → result ≡ greatest_sum rows r (walk.horizon - k) (k + 1) from }
    {
        self.best
    }

    /// Appends to a path of `k` positions the least of the walks of the greatest sum, where the tables are filled with this
    /// grid and these rewards for the periods after `k`. The sums are read from the tables.
    pub fn least_best(&self, grid: &Grid, _rewards: &[u128], to: &mut Path)
        requires filled { IsFilled self.now grid.now _rewards.now self.now.from (length to.old) }
        requires room { length to.old ≤ self.now.horizon }
        ensures kept { Starts to.old to.new }
        ensures least { let walk = self.now in let k = length to.old in
            IsLeastBest grid.now (entry_at walk.positions _rewards.now) (walk.horizon - k) (k + 1) walk.from
            (drop k to.new) }
    {
        append_least(&self.sums, grid, self.horizon as usize, self.from, to);
    }

    /// The same where the tables are filled for the positions that a walk can be on.
    pub fn least_near(&self, grid: &Grid, to: &mut Path)
        requires filled { (r : ℕ → ℕ → ℕ) × IsFilledNear self.now grid.now r self.now.from (length to.old) }
        requires room { length to.old ≤ self.now.horizon }
        ensures kept { Starts to.old to.new }
        ensures least { let walk = self.now in let k = length to.old in
            (r : ℕ → ℕ → ℕ) → IsFilledNear walk grid.now r walk.from k
            → IsLeastBest grid.now r (walk.horizon - k) (k + 1) walk.from (drop k to.new) }
    {
        append_least(&self.sums, grid, self.horizon as usize, self.from, to);
    }
}
