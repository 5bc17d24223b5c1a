use scenario_maker::make;
use search_model::Scenario;
use std::alloc::Global;
use std::test::Fail;

// What a number gives: of the drift, the part to a side neighbour and what stays in the middle and in a corner.
#[derive(Clone, Copy)]
struct Row {
    number: u64,
    start: u8,
    first: [u32; 25],
    spread: u32,
    middle: u32,
    corner: u32,
    overlook: u32,
}

// Computed from the generator's two numbers and the bounds of the draws, by a script in another language.
const ROWS: [Row; 4] = [
    Row {
        number: 0,
        start: 7,
        first: [
            4, 2, 0, 2, 2, 1, 1, 6, 2, 4, 1, 3, 2, 3, 4, 1, 5, 4, 0, 2, 3, 1, 2, 0, 5,
        ],
        spread: 3,
        middle: 0,
        corner: 6,
        overlook: 2,
    },
    Row {
        number: 1,
        start: 24,
        first: [
            3, 2, 4, 3, 1, 5, 0, 5, 3, 3, 2, 4, 1, 2, 2, 2, 1, 0, 2, 5, 3, 3, 3, 1, 0,
        ],
        spread: 1,
        middle: 8,
        corner: 10,
        overlook: 1,
    },
    Row {
        number: 1 << 63,
        start: 6,
        first: [
            5, 2, 0, 2, 2, 1, 6, 2, 4, 1, 4, 0, 2, 4, 1, 4, 4, 3, 2, 2, 1, 2, 1, 3, 2,
        ],
        spread: 2,
        middle: 4,
        corner: 8,
        overlook: 2,
    },
    Row {
        number: u64::MAX,
        start: 13,
        first: [
            2, 5, 5, 3, 1, 2, 2, 3, 4, 1, 4, 0, 8, 1, 1, 5, 3, 2, 1, 0, 0, 2, 4, 0, 1,
        ],
        spread: 3,
        middle: 0,
        corner: 6,
        overlook: 4,
    },
];

// Whether the first distribution is as in the row.
fn starts_as(scenario: &Scenario, first: &[u32; 25]) -> bool {
    if scenario.cells() != 25 {
        return false;
    }
    for (c, part) in first.iter().enumerate() {
        if scenario.first(c as u8) != *part {
            return false;
        }
    }
    true
}

fn drifts_as(scenario: &Scenario, row: &Row) -> bool {
    let drift = scenario.drift();
    drift.cells() == 25
        && drift.part(1, 12, 7) == row.spread
        && drift.part(1, 12, 12) == row.middle
        && drift.part(1, 24, 24) == row.corner
}

// Whether a scenario is as drawn in the row; its weight is 60 * 12 ^ 7 * 6 ^ 8.
fn is_drawn(scenario: &Scenario, row: &Row) -> bool {
    starts_as(scenario, &row.first)
        && drifts_as(scenario, row)
        && scenario.weight() == 3_611_020_681_543_680
        && scenario.start() == row.start
        && scenario.sweep().one_rate(8) == Some(row.overlook)
}

/// Says nothing of the scenario, so that no proof carries it.
pub(crate) fn made(alloc: Global, number: u64) -> Result<Scenario, Fail> {
    Ok(make(alloc, number)?)
}

#[test]
fn numbers_give_what_is_drawn_for_them(rt: HostRuntime) -> Result<(), Fail> {
    for row in ROWS {
        let scenario = made(rt.alloc(), row.number)?;
        let drawn = is_drawn(&scenario, &row);
        drop(scenario);
        assert!(rt; drawn, "the number {}", row.number);
    }
    Ok(())
}

fn has_names(scenario: &Scenario) -> bool {
    scenario.cells() == 25
        && scenario.name(0).bytes() == b"r0c0".as_slice()
        && scenario.name(7).bytes() == b"r1c2".as_slice()
        && scenario.name(24).bytes() == b"r4c4".as_slice()
        && scenario.positions() == 25
        && scenario.position(7).bytes() == b"r1c2".as_slice()
}

// The parts of 3 to four neighbours leave none that stays.
fn has_side_neighbours(scenario: &Scenario) -> bool {
    scenario.grid().cells() == 25
        && scenario.grid().moves(7) == [2, 6, 7, 8, 12].as_slice()
        && scenario.drift().cells() == 25
        && scenario.drift().row(1, 12).len() == 4
}

#[test]
fn cells_are_named_by_row_and_column(rt: HostRuntime) -> Result<(), Fail> {
    let scenario = made(rt.alloc(), 0)?;
    let start = scenario.start();
    let named = has_names(&scenario);
    let beside = has_side_neighbours(&scenario);
    drop(scenario);
    assert_eq!(rt; start, 7);
    assert!(rt; named);
    assert!(rt; beside);
    Ok(())
}
