//! Laws over the text that a feed is fed.

ghost use Rattle.tree_format.specs.FeedLaws.{CutAnywhere, ItemsOfThePlan, EachFaultIsMet, FaultIsLast, ItemsInOrder, GatheredIsSummary};

/// However the bytes were cut into pieces, the items are the same, and so is what is kept.
pub fn cut_anywhere()
    ensures { CutAnywhere }
{}

/// The items are those of the plan that reading gives for the bytes.
pub fn items_of_the_plan()
    ensures { ItemsOfThePlan }
{}

/// The fault that reading gives for bytes is decided by first bytes of them, or the bytes end early.
pub fn each_fault_is_met()
    ensures { EachFaultIsMet }
{}

/// Behind a fault that is decided nothing is told.
pub fn fault_is_last()
    ensures { FaultIsLast }
{}

/// The items stand in the order of a plan, and are no more records than its head says.
pub fn items_in_order()
    ensures { ItemsInOrder }
{}

/// Of a line a feed keeps the first 40 bytes of each of the first 70 fields.
pub fn gathered_is_summary()
    ensures { GatheredIsSummary }
{}
