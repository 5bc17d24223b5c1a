//! The one rate of the looks of some periods.

ghost use Rattle.std.specs.Prelude.{ℕ, ◌<◌, ◌≤◌, [], ◌∷◌, map, IfSome, IfNone};
ghost use Rattle.sweep_table.specs.LookParts.{IsSweep, IsOneRate};
ghost use Rattle.sweep_table.specs.Rates.{TellsRate, parts_in_period};

use crate::table::Sweep;
use period_rows::CellPart;

impl Sweep {
    /// The least factor of the periods up to the horizon, where every one of them is that one or the denominator.
    pub fn one_rate(&self, horizon: u32) -> Option<u32>
        requires first { 1 ≤ horizon }
        requires last { horizon ≤ 32 }
        ensures some { IfSome result (IsOneRate self.now horizon) }
        ensures none { IfNone result ((rate : ℕ) → ¬ IsOneRate self.now horizon rate) }
        ensures sound { IsSweep self.now }
    {
        if self.may_change() {
            rate_up_to(self, horizon)
        } else {
            rate_up_to(self, 1)
        }
    }
}

// The one rate of the rows in force in periods 1 to `last`.
fn rate_up_to(sweep: &Sweep, last: u32) -> Option<u32>
    requires { (1 ≤ last) × (last ≤ 32) }
    ensures some { IfSome result (IsOneRate sweep.now last) }
    ensures none { IfNone result ((rate : ℕ) → ¬ IsOneRate sweep.now last rate) }
    ensures sound { IsSweep sweep.now }
{
    let mut rate = sweep.denominator();
    for t in 1..last + 1 {
        rate = rate_in_period(sweep, t, rate)?;
    }
    Some(rate)
}

// The one rate of a rate so far and of the parts in force in one period.
fn rate_in_period(sweep: &Sweep, t: u32, so_far: u32) -> Option<u32>
    requires { (1 ≤ t) × (t ≤ 32) }
    ensures { TellsRate sweep.now.denominator (so_far ∷ parts_in_period sweep.now t) result }
{
    let denominator = sweep.denominator();
    let mut rate = so_far;
    for p in 0..sweep.positions() {
        rate = rate_in_row(denominator, rate, sweep.look(t, p).parts())?;
    }
    Some(rate)
}

// The one rate of a rate so far and of the parts of a row.
fn rate_in_row(denominator: u32, so_far: u32, row: &[CellPart]) -> Option<u32>
    ensures { TellsRate denominator (so_far ∷ map (λ entry. entry.part) row.now) result }
{
    let mut rate = so_far;
    for entry in row {
        rate = joined(denominator, rate, entry.part)?;
    }
    Some(rate)
}

// The one rate of a rate so far and of one more part: they may differ where one of them is the denominator.
fn joined(denominator: u32, so_far: u32, part: u32) -> Option<u32>
    ensures { TellsRate denominator (so_far ∷ part ∷ []) result }
{
    if part == so_far || part == denominator {
        Some(so_far)
    } else if so_far == denominator {
        Some(part)
    } else {
        None
    }
}
