//! Beliefs along a prefix.

ghost use Rattle.std.specs.Prelude.{◌≡◌, ◌<◌, ◌≤◌, ◌+◌, ◌∷◌, [], ℕ, length, take, None, IfOk, All};
ghost use Rattle.search_model.specs.Problem.{Problem};
ghost use Rattle.search_model.specs.Legal.{IsLegal};
ghost use Rattle.belief_update.specs.Belief.{IsBelief};
ghost use Rattle.belief_update.specs.Trails.{IsAfter, IsAhead, IsTrailOf, AreRows, HaveAllCells, row_at, common_of};

use crate::belief::Belief;
use crate::count::Steps;
use exact_parts::NoMemory;
use search_model::{Path, Scenario};
use std::alloc::Global;
use std::marker::{Brand, Model};
use std::sync::ledger::{Blank, Ledger};

/// The beliefs along a prefix: after each number of its looks the belief after them, in the period of the last one, and
/// the same ahead of the next look, in the period of that. A prefix that comes next keeps those of the part that it has
/// in common with the one before it.
#[derive(Drop)]
pub struct Trail {
    prefix: Path,
    rows: Vec<Belief>,
    ahead: Vec<Belief>,
}

impl Model for Trail {
    ghost use Rattle.std.specs.Prelude.{◌<◌, length};
    ghost use Rattle.belief_update.specs.Trails.{TrailState};

    ghost Value = { TrailState };

    ghost view = { λ t. record { prefix = t.prefix; rows = t.rows.items; ahead = t.ahead.items } };

    ghost invariant = { λ t. length t.prefix < length t.rows.items };
}

/// So many beliefs before the first look.
pub(crate) fn first_beliefs(
    alloc: Global,
    sc: &Scenario,
    count: u32,
) -> Result<Vec<Belief>, NoMemory>
    ensures size { IfOk result (λ beliefs. length beliefs.items ≡ count) }
    ensures each { IfOk result (λ beliefs. All (IsBelief sc.now (None ∷ [])) beliefs.items) }
{
    let mut beliefs = Vec::new(alloc);
    for _ in 0..count {
        beliefs.push(Belief::start(alloc, sc)?)?;
    }
    Ok(beliefs)
}

/// How many positions two prefixes have in common, from the first on.
pub(crate) fn in_common(left: &[u8], right: &[u8]) -> usize
    ensures { result ≡ common_of left.now right.now }
{
    let most = left.len().min(right.len());
    for i in 0..most {
        if left[i] != right[i] {
            return i;
        }
    }
    most
}

// Makes the belief after `looks[i]` by the one ahead of it.
fn make_row<L: Ledger>(
    sc: &Scenario,
    rows: &mut [Belief],
    ahead: &Belief,
    looks: &[u8],
    i: usize,
    steps: &mut Steps<L>,
)
    requires inside { i < length looks.now }
    requires positions { All (λ a. a < sc.now.positions) looks.now }
    requires size { length looks.now < length rows.old }
    requires cells { HaveAllCells sc.now rows.old }
    requires ahead { IsAhead sc.now (take i looks.now) ahead.now }
    ensures cells { HaveAllCells sc.now rows.new }
    ensures row { IsAfter sc.now (take (i + 1) looks.now) (row_at rows.new (i + 1)) }
    ensures earlier { (k : ℕ) → k ≤ i → row_at rows.new k ≡ row_at rows.old k }
    ensures counted { steps.new ≡ steps.old + 1 }
{
    rows[i + 1].step_from(sc, ahead, looks[i], steps);
}

// Makes the belief ahead of look `i`, where there is such a period, by the one after the looks before it.
fn make_ahead(sc: &Scenario, ahead: &mut [Belief], row: &Belief, looks: &[u8], i: usize)
    requires inside { i ≤ length looks.now }
    requires some { 1 ≤ i }
    requires size { length ahead.old ≡ sc.now.horizon }
    requires cells { HaveAllCells sc.now ahead.old }
    requires row { IsAfter sc.now (take i looks.now) row.now }
    ensures cells { HaveAllCells sc.now ahead.new }
    ensures ahead { i < sc.now.horizon → IsAhead sc.now (take i looks.now) (row_at ahead.new i) }
    ensures earlier { (k : ℕ) → k < i → row_at ahead.new k ≡ row_at ahead.old k }
{
    if i < ahead.len() {
        ahead[i].drift_from(sc, row);
    }
}

// Goes on by a look.
fn go_by<L: Ledger>(
    sc: &Scenario,
    rows: &mut [Belief],
    ahead: &mut [Belief],
    looks: &[u8],
    i: usize,
    steps: &mut Steps<L>,
)
    requires inside { i < length looks.now }
    requires short { length looks.now ≤ sc.now.horizon }
    requires positions { All (λ a. a < sc.now.positions) looks.now }
    requires rows { AreRows sc.now looks.now i rows.old ahead.old }
    ensures rows { AreRows sc.now looks.now (i + 1) rows.new ahead.new }
    ensures counted { steps.new ≡ steps.old + 1 }
{
    make_row(sc, rows, &ahead[i], looks, i, steps);
    make_ahead(sc, ahead, &rows[i + 1], looks, i + 1);
}

// Goes on by all looks after the first `same`.
fn go_on<L: Ledger>(
    sc: &Scenario,
    rows: &mut [Belief],
    ahead: &mut [Belief],
    looks: &[u8],
    same: usize,
    steps: &mut Steps<L>,
)
    requires same { same ≤ length looks.now }
    requires short { length looks.now ≤ sc.now.horizon }
    requires positions { All (λ a. a < sc.now.positions) looks.now }
    requires rows { AreRows sc.now looks.now same rows.old ahead.old }
    ensures rows { AreRows sc.now looks.now (length looks.now) rows.new ahead.new }
    ensures counted { steps.new + same ≡ steps.old + length looks.now }
{
    for i in same..looks.len() {
        go_by(sc, rows, ahead, looks, i, steps);
    }
}

impl Trail {
    /// The beliefs along the empty prefix. The only call that takes memory.
    pub fn tables(alloc: Global, sc: &Scenario) -> Result<Trail, NoMemory>
        ensures made { IfOk result (IsTrailOf sc.now) }
        ensures prefix { IfOk result (λ t. t.prefix ≡ []) }
    {
        let horizon = sc.horizon();
        Ok(Trail {
            prefix: Path::empty(),
            rows: first_beliefs(alloc, sc, horizon + 1)?,
            ahead: first_beliefs(alloc, sc, horizon)?,
        })
    }

    /// Goes to a legal prefix. It counts a step for each position after those that the prefix has in common with the
    /// one before it.
    pub fn go<L: Ledger>(&mut self, sc: &Scenario, prefix: &Path, steps: &mut Steps<L>)
        requires made { IsTrailOf sc.now self.old }
        requires legal { IsLegal sc.now prefix.now }
        ensures made { IsTrailOf sc.now self.new }
        ensures prefix { self.new.prefix ≡ prefix.now }
        ensures counted { steps.new + common_of self.old.prefix prefix.now ≡ steps.old + length prefix.now }
    {
        sc.recall_sound();
        let same = in_common(self.prefix.cells(), prefix.cells());
        go_on(
            sc,
            &mut self.rows,
            &mut self.ahead,
            prefix.cells(),
            same,
            steps,
        );
        self.prefix = *prefix;
    }

    // Goes to a legal prefix by a counter of this call, of a new ledger.
    fn go_counting<L: Ledger>(&mut self, sc: &Scenario, prefix: &Path, blank: Blank)
        requires name { blank.name ≡ L.name }
        requires parts { blank.parts ≡ L.parts }
        requires some { 0 < blank.parts }
        requires made { IsTrailOf sc.now self.old }
        requires legal { IsLegal sc.now prefix.now }
        ensures made { IsTrailOf sc.now self.new }
        ensures prefix { self.new.prefix ≡ prefix.now }
    {
        let mut steps = Steps::<L>::start(blank);
        self.go(sc, prefix, &mut steps);
    }

    /// Goes to a legal prefix, where nobody asks for the steps.
    pub fn go_to(&mut self, sc: &Scenario, prefix: &Path)
        requires made { IsTrailOf sc.now self.old }
        requires legal { IsLegal sc.now prefix.now }
        ensures made { IsTrailOf sc.now self.new }
        ensures prefix { self.new.prefix ≡ prefix.now }
    {
        self.go_counting::<Brand>(sc, prefix, Blank::new(1));
    }

    /// The prefix that the beliefs are along.
    pub fn prefix(&self) -> Path
        ensures { result ≡ self.now.prefix }
    {
        self.prefix
    }

    /// The belief after the first `k` looks of the prefix.
    pub fn row(&self, k: usize) -> &Belief
        requires { k ≤ length self.now.prefix }
        ensures belief { (p : Problem) → IsTrailOf p self.now → IsAfter p (take k self.now.prefix) result.now }
        ensures row { result.now ≡ row_at self.now.rows k }
    {
        &self.rows[k]
    }
}
