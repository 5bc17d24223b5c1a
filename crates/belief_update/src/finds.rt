//! What a look finds of masses.

ghost use Rattle.std.specs.Prelude.{◌≡◌, ◌<◌, ◌≤◌, ◌^◌, length, slice_index};
ghost use Rattle.belief_update.specs.Found.{found_of};

use search_model::Scenario;

// What a look from position `a` in period `t` finds of masses, cell by cell of its row.
fn found_by_row(sc: &Scenario, t: u32, masses: &[u128], a: u8) -> u128
    requires period { (1 ≤ t) × (t ≤ sc.now.horizon) }
    requires cells { length masses.now ≡ sc.now.cells }
    requires position { a < sc.now.positions }
    requires fits { found_of sc.now t a (slice_index masses.now) < 2 ^ 127 }
    ensures { result ≡ found_of sc.now t a (slice_index masses.now) }
{
    let sweep = sc.sweep();
    let whole = sweep.denominator();
    let look = sweep.look(t, a);
    let mut sum = 0;
    for entry in look.parts() {
        sum += masses[usize::from(entry.cell)] * u128::from(whole - entry.part);
    }
    sum
}

/// What a look from position `a` in period `t` finds of masses, in all cells that it covers.
pub fn found(sc: &Scenario, t: u32, masses: &[u128], a: u8) -> u128
    requires period { (1 ≤ t) × (t ≤ sc.now.horizon) }
    requires cells { length masses.now ≡ sc.now.cells }
    requires position { a < sc.now.positions }
    requires fits { found_of sc.now t a (slice_index masses.now) < 2 ^ 127 }
    ensures { result ≡ found_of sc.now t a (slice_index masses.now) }
{
    let sweep = sc.sweep();
    match sweep.own_part(a) {
        Some(part) => masses[usize::from(a)] * u128::from(sweep.denominator() - part),
        None => found_by_row(sc, t, masses, a),
    }
}
