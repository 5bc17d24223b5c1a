//! Laws of what reports and maps say is left, and some of both worked by hand.

ghost use Rattle.mission_report.specs.Laws.{MassesAreMissed, FoundAndLeftUpTo, MassesByBelief, LeftIsMissed, FoundAndLeft};
ghost use Rattle.mission_report.specs.Worked.{WorkedReport, WorkedWaiting, WorkedMap};

/// The masses that a path leaves in the cells sum to what its looks miss: the whole weight less the path's value.
pub fn masses_left_sum()
    ensures missed { LeftIsMissed }
    ensures whole { FoundAndLeft }
{}

/// The masses of a period sum to what the looks up to then miss: the whole weight less the value up to then. In the periods
/// of a prefix they are those of the belief after the look, times the parts of the steps and of the looks to come.
pub fn masses_of_a_period()
    ensures missed { MassesAreMissed }
    ensures whole { FoundAndLeftUpTo }
    ensures belief { MassesByBelief }
{}

/// Reports of two small problems, worked by hand.
pub fn worked_reports()
    ensures two { WorkedReport }
    ensures waiting { WorkedWaiting }
{}

/// Maps of a small problem, worked by hand.
pub fn worked_maps()
    ensures { WorkedMap }
{}
