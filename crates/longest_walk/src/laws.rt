//! Laws of greatest sums.

ghost use Rattle.longest_walk.specs.Laws.{SameRewardsSameSum, HighestAbove, HighestBelow};
ghost use Rattle.longest_walk.specs.Worked.{WorkedWalks};

/// Rewards that are the same in each period and at each position have the same greatest sum.
pub fn same_rewards_same_sum()
    ensures { SameRewardsSameSum }
{}

/// No walk has more than the greatest rewards of its periods together.
pub fn highest_above()
    ensures { HighestAbove }
{}

/// Where no reward is above a bound, the greatest rewards of some periods are together at most so many times the bound.
pub fn highest_below()
    ensures { HighestBelow }
{}

/// Walks over the moves of small problems, worked by hand.
pub fn worked_walks()
    ensures { WorkedWalks }
{}
