//! The lines above the records.

ghost use Rattle.std.specs.Prelude.{◌≡◌, map};
ghost use Rattle.tree_format.specs.Dialects.{dialects_of};
ghost use Rattle.tree_format.specs.Reading.{version_said, version_line, path_line, chance_line, ceiling_said, ceiling_line, count_said, count_line};

use crate::fields::{amount_in, positions_named};
use crate::kind::PlanKind;
use crate::plan_line::{Dialect, Family, PlanLine};
use search_model::Scenario;

// The dialect of plans of this number.
fn plan_of(number: &[u8]) -> Result<PlanLine, PlanKind>
    ensures { result ≡ version_said (dialects_of Family.Plans) number.now }
{
    if number == b"1".as_slice() {
        Ok(PlanLine::Version(Dialect::PlanOne))
    } else if number == b"2".as_slice() {
        Ok(PlanLine::Version(Dialect::PlanTwo))
    } else if number == b"3".as_slice() {
        Ok(PlanLine::Version(Dialect::PlanThree))
    } else {
        Err(PlanKind::BadLine)
    }
}

// The dialect of gap plans of this number.
fn gap_of(number: &[u8]) -> Result<PlanLine, PlanKind>
    ensures { result ≡ version_said (dialects_of Family.Gaps) number.now }
{
    if number == b"1".as_slice() {
        Ok(PlanLine::Version(Dialect::GapOne))
    } else if number == b"2".as_slice() {
        Ok(PlanLine::Version(Dialect::GapTwo))
    } else {
        Err(PlanKind::BadLine)
    }
}

// `plan 1`, `plan 2` or `plan 3`
fn plan_version(fields: &[&[u8]]) -> Result<PlanLine, PlanKind>
    ensures { result ≡ version_line Family.Plans (map (λ f. f.now) fields.now) }
{
    match fields {
        [word, number] if *word == b"plan".as_slice() => plan_of(number),
        _ => Err(PlanKind::BadLine),
    }
}

// `gap 1` or `gap 2`
fn gap_version(fields: &[&[u8]]) -> Result<PlanLine, PlanKind>
    ensures { result ≡ version_line Family.Gaps (map (λ f. f.now) fields.now) }
{
    match fields {
        [word, number] if *word == b"gap".as_slice() => gap_of(number),
        _ => Err(PlanKind::BadLine),
    }
}

/// The first line of a text of the family.
pub fn read_version(family: Family, fields: &[&[u8]]) -> Result<PlanLine, PlanKind>
    ensures { result ≡ version_line family (map (λ f. f.now) fields.now) }
{
    match family {
        Family::Plans => plan_version(fields),
        Family::Gaps => gap_version(fields),
    }
}

/// `path NAME ..`
pub fn read_path(sc: &Scenario, fields: &[&[u8]]) -> Result<PlanLine, PlanKind>
    ensures { result ≡ path_line sc.now (map (λ f. f.now) fields.now) }
{
    match fields {
        [word, names @ ..]
            if *word == b"path".as_slice() && 1 <= names.len() && names.len() <= 32 => {
            match positions_named(sc, names) {
                None => Err(PlanKind::UnknownName),
                Some(path) => Ok(PlanLine::Path(path)),
            }
        }
        _ => Err(PlanKind::BadLine),
    }
}

/// `chance V W`
pub fn read_chance(fields: &[&[u8]]) -> Result<PlanLine, PlanKind>
    ensures { result ≡ chance_line (map (λ f. f.now) fields.now) }
{
    match fields {
        [word, value, weight] if *word == b"chance".as_slice() => {
            match (amount_in(value), amount_in(weight)) {
                (Some(value), Some(weight)) => Ok(PlanLine::Chance(value, weight)),
                _ => Err(PlanKind::BadNumber),
            }
        }
        _ => Err(PlanKind::BadLine),
    }
}

fn ceiling_of(ceiling: Option<u128>) -> Result<PlanLine, PlanKind>
    ensures { result ≡ ceiling_said ceiling }
{
    match ceiling {
        None => Err(PlanKind::BadNumber),
        Some(ceiling) => Ok(PlanLine::Ceiling(ceiling)),
    }
}

/// `ceiling N`
pub fn read_ceiling(fields: &[&[u8]]) -> Result<PlanLine, PlanKind>
    ensures { result ≡ ceiling_line (map (λ f. f.now) fields.now) }
{
    match fields {
        [word, n] if *word == b"ceiling".as_slice() => ceiling_of(amount_in(n)),
        _ => Err(PlanKind::BadLine),
    }
}

fn announced(most: u64, count: Option<u128>) -> Result<PlanLine, PlanKind>
    ensures { result ≡ count_said most count }
{
    match count {
        None => Err(PlanKind::BadNumber),
        Some(count) if count > u128::from(most) => Err(PlanKind::TooManyNodes),
        Some(count) => Ok(PlanLine::Count(count as u64)),
    }
}

/// `nodes N`, of which there may be so many
pub fn read_count(most: u64, fields: &[&[u8]]) -> Result<PlanLine, PlanKind>
    ensures { result ≡ count_line most (map (λ f. f.now) fields.now) }
{
    match fields {
        [word, n] if *word == b"nodes".as_slice() => announced(most, amount_in(n)),
        _ => Err(PlanKind::BadLine),
    }
}
