//! The rate of a scenario.

ghost use Rattle.tangent_bound.specs.Room.{IsRateFound};

use search_model::Scenario;

/// The rate of a scenario, where it has one. It is found by all looks of all periods.
pub(crate) fn one_rate(sc: &Scenario) -> Option<u32>
    ensures { IsRateFound sc.now result }
{
    sc.sweep().one_rate(sc.horizon())
}
