use crate::scenarios::asked_of;
use opening_path::opening;
use search_model::Scenario;
use std::alloc::Global;
use std::test::Fail;
use worked_scenarios::{FOUR_CELLS, ONE_CELL, TWO_CELLS};

// Whether the opening of a scenario is this path, with this value.
fn is_opening(alloc: Global, sc: &Scenario, path: &[u8], value: u128) -> Result<bool, Fail> {
    let found = opening(alloc, sc)?;
    Ok(found.path.cells() == path && found.value == value)
}

fn is_opened(alloc: Global, text: &str, path: &[u8], value: u128) -> Result<bool, Fail> {
    asked_of(alloc, text, |alloc, sc| is_opening(alloc, sc, path, value))
}

// The one path; of equal values the least move; and the greedy path where it misses the best.
#[test]
fn openings_are_as_worked_by_hand(rt: HostRuntime) -> Result<(), Fail> {
    assert!(rt; is_opened(rt.alloc(), ONE_CELL, &[0], 1)?);
    assert!(rt; is_opened(rt.alloc(), TWO_CELLS, &[0, 0], 12)?);
    assert!(rt; is_opened(rt.alloc(), FOUR_CELLS, &[0, 0], 3)?);
    Ok(())
}
