//! The prefixes that words name by their positions.

ghost use Rattle.std.specs.Prelude.{◌≡◌, ◌≤◌, length, map, string_bytes, IfOk, IfErr, IfSome, IfNone};
ghost use Rattle.plan_command.specs.Whys.{flown_name_of};
ghost use Rattle.plan_command.specs.Flown.{AreNamed, HasStranger, IsFlown, IsUnflown};

use crate::status::{Refusal, Stop};
use search_model::{Path, Scenario};

/// Why no scenario forces a flown prefix; the first of these that holds is named.
#[derive(Clone, Copy, Debug, PartialEq, Eq)]
pub enum FlownWhy {
    /// One of the names is no position's.
    UnknownName,
    /// The positions don't follow the moves from the start, or there are more than periods.
    NotLegal,
    /// There would be more than 200 positions.
    TooManyPositions,
    /// A position has a name that a new one would have.
    NameTaken,
}

/// The name of a reason.
pub fn flown_why_name(why: FlownWhy) -> &'static str
    ensures { result.now ≡ flown_name_of why }
{
    match why {
        FlownWhy::UnknownName => "UnknownName",
        FlownWhy::NotLegal => "NotLegal",
        FlownWhy::TooManyPositions => "TooManyPositions",
        FlownWhy::NameTaken => "NameTaken",
    }
}

/// Nothing is made of a prefix, for this reason.
pub fn unflown(why: FlownWhy) -> Stop
    ensures { result ≡ Stop.Refused (Refusal.BadFlown why) }
{
    Stop::Refused(Refusal::BadFlown(why))
}

// The positions of these names, where each is one's.
fn positions_named(sc: &Scenario, names: &[String]) -> Option<Path>
    requires { length names.now ≤ 32 }
    ensures some { IfSome result (AreNamed sc.now (map string_bytes names.now)) }
    ensures none { IfNone result (HasStranger sc.now (map string_bytes names.now)) }
{
    let mut flown = Path::empty();
    for name in names {
        flown.push(sc.position_named(name.as_bytes())?);
    }
    Some(flown)
}

/// The legal prefix of these names, or why it isn't one. All names are looked up before its moves are asked.
pub fn flown_from(sc: &Scenario, names: &[String]) -> Result<Path, FlownWhy>
    requires { length names.now ≤ 32 }
    ensures ok { IfOk result (IsFlown sc.now (map string_bytes names.now)) }
    ensures err { IfErr result (IsUnflown sc.now (map string_bytes names.now)) }
{
    match positions_named(sc, names) {
        None => Err(FlownWhy::UnknownName),
        Some(flown) if sc.is_legal(&flown) => Ok(flown),
        Some(_) => Err(FlownWhy::NotLegal),
    }
}
