ghost use Rattle.std.specs.Prelude.{IfSome};
ghost use Rattle.search_model.specs.Legal.{IsPath};

use crate::scenario_texts::asked_of;
use mission_report::{push_report, push_report_json};
use search_model::{Path, Scenario};
use std::alloc::Global;
use std::test::Fail;
use worked_scenarios as worked;

// The path of a scenario that has these positions.
fn path_of(sc: &Scenario, positions: &[u8]) -> Option<Path>
    ensures { IfSome result (IsPath sc.now) }
{
    let path = Path::of(positions)?;
    if path.len() == sc.horizon() as usize && sc.is_legal(&path) {
        Some(path)
    } else {
        None
    }
}

// Whether the report of a scenario's path is this text.
fn is_report(alloc: Global, sc: &Scenario, positions: &[u8], text: &str) -> Result<bool, Fail> {
    let Some(path) = path_of(sc, positions) else {
        return Ok(false);
    };
    let mut out = Vec::new(alloc);
    push_report(&mut out, sc, &path)?;
    Ok(out.as_slice() == text.as_bytes())
}

// The same in JSON.
fn is_json(alloc: Global, sc: &Scenario, positions: &[u8], text: &str) -> Result<bool, Fail> {
    let Some(path) = path_of(sc, positions) else {
        return Ok(false);
    };
    let mut out = Vec::new(alloc);
    push_report_json(&mut out, sc, &path)?;
    Ok(out.as_slice() == text.as_bytes())
}

fn reports(alloc: Global, scenario: &str, positions: &[u8], text: &str) -> Result<bool, Fail> {
    asked_of(
        alloc,
        scenario.as_bytes(),
        |sc| is_report(alloc, sc, positions, text),
    )
}

fn reports_json(alloc: Global, scenario: &str, positions: &[u8], text: &str) -> Result<bool, Fail> {
    asked_of(
        alloc,
        scenario.as_bytes(),
        |sc| is_json(alloc, sc, positions, text),
    )
}

const TWO_CELLS: &str = "report 1
chance 12 16 75.000
period 1 a 8 50.000
period 2 a 12 75.000
left a 0 0.000
left b 4 25.000
end
";

const TWO_CELLS_JSON: &str =
    "{\"chance\":\"12\",\"left\":[{\"cell\":\"a\",\"mass\":\"0\"},{\"cell\":\"b\",\"mass\":\"4\"}],\"path\":[\"a\",\"a\"],\"periods\":[\"8\",\"12\"],\"weight\":\"16\"}\n";

const FOUR_CELLS: &str = "report 1
chance 6 9 66.666
period 1 c 2 22.222
period 2 d 6 66.666
left a 3 33.333
left b 0 0.000
left c 0 0.000
left d 0 0.000
end
";

// The searcher's places have the positions' names, what is left the cells'.
const FROM_THE_AIR: &str = "report 1
chance 1 2 50.000
period 1 air 1 50.000
left a 1 50.000
end
";

const FROM_THE_AIR_JSON: &str =
    "{\"chance\":\"1\",\"left\":[{\"cell\":\"a\",\"mass\":\"1\"}],\"path\":[\"air\"],\"periods\":[\"1\"],\"weight\":\"2\"}\n";

#[test]
fn a_path_over_two_cells_is_reported(rt: HostRuntime) -> Result<(), Fail> {
    let two = worked::TWO_CELLS;
    assert!(rt; reports(rt.alloc(), two, &[0, 0], TWO_CELLS)?);
    assert!(rt; reports_json(rt.alloc(), two, &[0, 0], TWO_CELLS_JSON)?);
    Ok(())
}

#[test]
fn a_path_over_four_cells_is_reported(rt: HostRuntime) -> Result<(), Fail> {
    assert!(rt; reports(rt.alloc(), worked::FOUR_CELLS, &[2, 3], FOUR_CELLS)?);
    Ok(())
}

#[test]
fn a_path_from_the_air_is_reported(rt: HostRuntime) -> Result<(), Fail> {
    let air = worked::BASE_AND_AIR;
    assert!(rt; reports(rt.alloc(), air, &[1], FROM_THE_AIR)?);
    assert!(rt; reports_json(rt.alloc(), air, &[1], FROM_THE_AIR_JSON)?);
    Ok(())
}
