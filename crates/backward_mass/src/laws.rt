//! What forward and backward masses say together.

ghost use Rattle.backward_mass.specs.Laws.{MissedByCell, LookApart, MissedInEachPeriod, GainByCell};
ghost use Rattle.backward_mass.specs.Worked.{WorkedMasses};

/// What a prefix misses, counted by the cell in a period, is the sum over the cells of forward mass times backward mass.
pub fn missed_by_cell()
    ensures { MissedByCell }
{}

/// A look multiplies the forward mass of each cell by its factor.
pub fn look_apart()
    ensures { LookApart }
{}

/// In each period the products of forward and backward masses sum to the missed weight.
pub fn missed_in_each_period()
    ensures { MissedInEachPeriod }
{}

/// What one more look finds of what a path misses, by the cells where it finds something.
pub fn gain_by_cell()
    ensures { GainByCell }
{}

/// The masses of small problems, worked by hand.
pub fn worked_masses()
    ensures { WorkedMasses }
{}
