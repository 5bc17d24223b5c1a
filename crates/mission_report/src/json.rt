//! The report as JSON.

ghost use Rattle.std.specs.Prelude.{◌≡◌, ◌<◌, ◌++◌, length, map, slice_index, IfOk, OnOk, OnErr};
ghost use Rattle.serde_json.specs.Data.{string};
ghost use Rattle.serde_json.specs.View.{view};
ghost use Rattle.search_model.specs.Legal.{IsPath};
ghost use Rattle.mission_report.specs.Account.{all_cells};
ghost use Rattle.mission_report.specs.Json.{decimal_value, place_value, left_entry, object_of, report_value as report_value_lem, report_json};

use crate::course::{follow, value_after};
use belief_update::Belief;
use exact_parts::NoMemory;
use search_model::{Name, Path, Scenario};
use serde_json::{Map, Value, put};
use std::alloc::Global;

// A name as a text.
fn name_value(alloc: Global, name: &Name) -> Result<Value, NoMemory>
    ensures { IfOk result (λ v. view v ≡ string name.now) }
{
    // A name's bytes are ASCII.
    let text = str::from_utf8(name.bytes()).unwrap();
    Ok(Value::try_from_str(alloc, text)?)
}

// A number as the text of its decimal.
fn number_value(alloc: Global, n: u128) -> Result<Value, NoMemory>
    ensures { IfOk result (λ v. view v ≡ decimal_value n) }
{
    Ok(Value::from(n.to_string(alloc)?))
}

// Numbers, as the texts of their decimals.
fn number_values(alloc: Global, numbers: &[u128]) -> Result<Vec<Value>, NoMemory>
    ensures { IfOk result (λ values. map view values.items ≡ map decimal_value numbers.now) }
{
    let mut values = Vec::new(alloc);
    for n in numbers {
        values.push(number_value(alloc, *n)?)?;
    }
    Ok(values)
}

// The names of a path's positions.
fn place_values(alloc: Global, sc: &Scenario, path: &Path) -> Result<Vec<Value>, NoMemory>
    requires { IsPath sc.now path.now }
    ensures { IfOk result (λ values. map view values.items ≡ map (place_value sc.now) path.now) }
{
    sc.recall_sound();
    let mut values = Vec::new(alloc);
    for a in path.cells() {
        values.push(name_value(alloc, sc.position(*a))?)?;
    }
    Ok(values)
}

// A cell, and the mass that is left there.
fn left_value(alloc: Global, sc: &Scenario, c: u8, mass: u128) -> Result<Value, NoMemory>
    requires { c < sc.now.cells }
    ensures { IfOk result (λ v. view v ≡ left_entry sc.now c mass) }
{
    let name = name_value(alloc, sc.name(c))?;
    let number = number_value(alloc, mass)?;
    let mut members = Map::new(alloc);
    put(&mut members, alloc, "cell", name)?;
    put(&mut members, alloc, "mass", number)?;
    Ok(Value::Object(members))
}

// What is left in each cell, by the masses of a belief.
fn left_values(alloc: Global, sc: &Scenario, belief: &Belief) -> Result<Vec<Value>, NoMemory>
    requires { length belief.now.masses ≡ sc.now.cells }
    ensures { IfOk result (λ values.
        map view values.items ≡ map (λ c.
        left_entry sc.now c (slice_index belief.now.masses c)) (all_cells sc.now)) }
{
    let mut values = Vec::new(alloc);
    for c in 0..sc.cells() {
        values.push(left_value(alloc, sc, c, belief.at(c))?)?;
    }
    Ok(values)
}

// The object of a report.
fn report_object(
    alloc: Global,
    chance: Value,
    left: Vec<Value>,
    path: Vec<Value>,
    periods: Vec<Value>,
    weight: Value,
) -> Result<Value, NoMemory>
    ensures { IfOk result (λ v.
        view v ≡ object_of (view chance) (map view left.items) (map view path.items) (map view periods.items)
        (view weight)) }
{
    let mut members = Map::new(alloc);
    put(&mut members, alloc, "chance", chance)?;
    put(&mut members, alloc, "left", Value::Array(left))?;
    put(&mut members, alloc, "path", Value::Array(path))?;
    put(&mut members, alloc, "periods", Value::Array(periods))?;
    put(&mut members, alloc, "weight", weight)?;
    Ok(Value::Object(members))
}

// The report of a path as a value.
fn report_value(alloc: Global, sc: &Scenario, path: &Path) -> Result<Value, NoMemory>
    requires { IsPath sc.now path.now }
    ensures { IfOk result (λ v. view v ≡ report_value_lem sc.now path.now) }
{
    let course = follow(alloc, sc, path)?;
    let chance = number_value(alloc, value_after(sc, &course.belief))?;
    let left = left_values(alloc, sc, &course.belief)?;
    let places = place_values(alloc, sc, path)?;
    let periods = number_values(alloc, &course.values)?;
    let weight = number_value(alloc, sc.weight())?;
    report_object(alloc, chance, left, places, periods, weight)
}

/// Appends the report of a path as one line of JSON: an object with the texts of the path's value and of the whole
/// weight, the names of its positions, its value up to each period, and the mass that it leaves in each cell.
///
/// # Errors
///
/// `NoMemory`: `out` is then as it was.
pub fn push_report_json(out: &mut Vec<u8>, sc: &Scenario, path: &Path) -> Result<(), NoMemory>
    requires { IsPath sc.now path.now }
    ensures ok { OnOk result (out.new.items ≡ out.old.items ++ report_json sc.now path.now) }
    ensures err { OnErr result (out.new.items ≡ out.old.items) }
{
    let alloc = *out.allocator();
    let mut text = report_value(alloc, sc, path)?.to_vec(alloc)?;
    text.push(b'\n')?;
    Ok(out.extend_from_slice(&text)?)
}
