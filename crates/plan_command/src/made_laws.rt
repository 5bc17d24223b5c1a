//! What the plan of a scenario that is made says of the scenario that it is made of.

ghost use Rattle.plan_command.specs.MadeLaws.{ReplannedIsBest, PairedIsBest, MadeIsAccepted, MadeIsWithin, WrittenIsAccepted, ForcedByNamesIsOne, PairedByNameIsOne, FewLiveStays, OnePrefixIsNamed, FlownIsntRefused, ForcedIsntRefused, OneWhyIsntForced, ProductIsntRefused, OneWhyIsntPaired};

/// The planned path of a scenario that forces a prefix, taken back, is the best of those that begin with the prefix.
pub fn replanned_is_best()
    ensures { ReplannedIsBest }
{}

/// The planned path of a product scenario stands for a pair of paths that finds what the plan says, and no pair finds
/// more.
pub fn paired_is_best()
    ensures { PairedIsBest }
{}

/// What is written for a scenario that is made is an input whose plan is accepted, for a scenario that is the same
/// search, and no longer than what `check` reads. What `run` keeps says so of all that `replan` and `duo` write.
pub fn made_is_accepted()
    ensures accepted { MadeIsAccepted }
    ensures within { MadeIsWithin }
    ensures written { WrittenIsAccepted }
{}

/// Scenarios that force the prefix of the same names are one search, and so are the product scenarios for a second
/// start of one name; and where one of them has few live prefixes under its opening, each of them does.
pub fn made_is_one_search()
    ensures forced { ForcedByNamesIsOne }
    ensures paired { PairedByNameIsOne }
    ensures few { FewLiveStays }
{}

/// Names are those of one prefix. They are refused for one reason, and aren't where the prefix is flown, or forced.
pub fn refused_for_one_reason()
    ensures one_prefix { OnePrefixIsNamed }
    ensures flown { FlownIsntRefused }
    ensures forced { ForcedIsntRefused }
    ensures one_why { OneWhyIsntForced }
{}

/// A second start is refused for one reason, and isn't where there is a product.
pub fn pair_refused_for_one_reason()
    ensures product { ProductIsntRefused }
    ensures one_why { OneWhyIsntPaired }
{}
