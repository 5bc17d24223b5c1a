//! What a text of version 1 can say: scenarios that are the same in every period.

ghost use Rattle.std.specs.Prelude.{◌≡◌, ◌<◌, ◌≤◌, ◌-◌, ◌==◌};
ghost use Rattle.std.specs.Cmp.Lexicographic.{pointwise};
ghost use Rattle.std.specs.List.{list_all, range_with_len};
ghost use Rattle.std.specs.Str.{bytes_eq};
ghost use Rattle.drift_chain.specs.DriftRows.{row_of};
ghost use Rattle.search_model.specs.Problem.{IsProblem, cell_name, position_name};
ghost use Rattle.period_rows.specs.Rows.{is_same_row as is_same_row_lem};
ghost use Rattle.scenario_text.specs.Canonical.{covered, is_as_first, is_steady, covers_itself as covers_itself_lem, is_plain as is_plain_lem};

use drift_chain::DriftPart;
use search_model::Scenario;

// Whether two rows have the same entries in the same order.
fn is_same_row(xs: &[DriftPart], ys: &[DriftPart]) -> bool
    ensures { result ≡ is_same_row_lem xs.now ys.now }
{
    xs == ys
}

/// Whether the row of a cell's drift in one period is that of period 1.
pub fn is_same_drift(sc: &Scenario, t: u32, c: u8) -> bool
    requires problem { IsProblem sc.now }
    requires period { (1 ≤ t) × (t ≤ 31) }
    requires cell { c < sc.now.cells }
    ensures { result ≡ is_same_row_lem (row_of sc.now.drift t c) (row_of sc.now.drift 1 c) }
{
    is_same_row(sc.drift().row(t, c), sc.drift().row(1, c))
}

/// Whether a look of one period misses of each cell what that of period 1 misses.
pub fn is_same_look(sc: &Scenario, t: u32, q: u8) -> bool
    requires problem { IsProblem sc.now }
    requires period { (1 ≤ t) × (t ≤ 32) }
    requires position { q < sc.now.positions }
    ensures { result ≡ is_same_row_lem (covered sc.now t q) (covered sc.now 1 q) }
{
    for c in 0..sc.cells() {
        if sc.sweep().factor(t, q, c) != sc.sweep().factor(1, q, c) {
            return false;
        }
    }
    true
}

// Whether the drift rows of one period are those of period 1.
fn drifts_as_first(sc: &Scenario, t: u32) -> bool
    requires problem { IsProblem sc.now }
    requires period { (1 ≤ t) × (t ≤ 31) }
    ensures { result ≡ is_as_first (row_of sc.now.drift) sc.now.cells t }
{
    for c in 0..sc.cells() {
        if !is_same_drift(sc, t, c) {
            return false;
        }
    }
    true
}

// Whether the drift rows are the same after each period but the last one.
fn is_drift_steady(sc: &Scenario) -> bool
    ensures { result ≡ is_steady (row_of sc.now.drift) sc.now.cells (sc.now.horizon - 1) }
{
    for t in 2..sc.horizon() {
        if !drifts_as_first(sc, t) {
            return false;
        }
    }
    true
}

// Whether the looks of one period are those of period 1.
fn looks_as_first(sc: &Scenario, t: u32) -> bool
    requires problem { IsProblem sc.now }
    requires period { (1 ≤ t) × (t ≤ 32) }
    ensures { result ≡ is_as_first (covered sc.now) sc.now.positions t }
{
    for q in 0..sc.positions() {
        if !is_same_look(sc, t, q) {
            return false;
        }
    }
    true
}

// Whether the looks are the same in each period.
fn are_looks_steady(sc: &Scenario) -> bool
    ensures { result ≡ is_steady (covered sc.now) sc.now.positions sc.now.horizon }
{
    for t in 2..sc.horizon() + 1 {
        if !looks_as_first(sc, t) {
            return false;
        }
    }
    true
}

// Whether a look covers no cell but the one of its position's number.
fn covers_itself(sc: &Scenario, q: u8) -> bool
    requires problem { IsProblem sc.now }
    requires position { q < sc.now.positions }
    ensures { result ≡ covers_itself_lem sc.now q }
{
    for c in 0..sc.cells() {
        if c != q && sc.sweep().factor(1, q, c) != sc.sweep().denominator() {
            return false;
        }
    }
    true
}

// Whether each look covers no cell but the one of its position's number.
fn cover_themselves(sc: &Scenario) -> bool
    ensures { result ≡ list_all (covers_itself_lem sc.now) (range_with_len 0 sc.now.positions) }
{
    for q in 0..sc.positions() {
        if !covers_itself(sc, q) {
            return false;
        }
    }
    true
}

// Whether a position has the name of the cell of its number.
fn has_cell_name(sc: &Scenario, q: u8) -> bool
    requires position { q < sc.now.positions }
    requires cell { q < sc.now.cells }
    ensures { result ≡ bytes_eq (position_name sc.now q) (cell_name sc.now q) }
{
    sc.position(q).bytes() == sc.name(q).bytes()
}

// Whether the positions have the names of the cells.
fn have_cell_names(sc: &Scenario) -> bool
    ensures value { result ≡ pointwise bytes_eq sc.now.position_names sc.now.names }
    ensures sound { IsProblem sc.now }
{
    if sc.positions() != sc.cells() {
        return false;
    }
    for q in 0..sc.positions() {
        if !has_cell_name(sc, q) {
            return false;
        }
    }
    true
}

/// Whether a text of version 1 can say a scenario: the positions are the cells with the same names, nothing depends on the
/// period, and each look covers the cell of its position's number alone.
#[tactic(auto, unfolding(crate::specs::Canonical::is_plain))]
pub fn is_plain(sc: &Scenario) -> bool
    ensures value { result ≡ is_plain_lem sc.now }
    ensures sound { IsProblem sc.now }
{
    have_cell_names(sc) && is_drift_steady(sc) && are_looks_steady(sc) && cover_themselves(sc)
}
