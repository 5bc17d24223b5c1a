use crate::kind::PlanFault;
use bound_tree::{GapNode, Numbers};
use search_model::Standing;

/// What the lines of a plan or of a gap plan tell, one after the other.
#[derive(Clone, Copy)]
pub enum PlanItem {
    /// The standing, the weight, the ceiling, which is the value in a plan, the numbers of nodes that wait, and the number of
    /// records, at the end of the line `nodes N`.
    Head(Standing, u128, u128, Numbers, u64),
    /// A record, at the end of its line. In a plan it is closed.
    Node(GapNode),
    /// The end of the plan, at the end of its last line.
    End,
}

/// What bytes brought that were fed.
#[derive(Clone, Copy)]
pub enum Step {
    /// Neither an item nor a fault.
    More,
    /// An item, which the last byte fed completes.
    Item(PlanItem),
    /// The fault of the text, which the last byte fed decides.
    Fault(PlanFault),
}

/// How many bytes of a piece were fed, and what they brought.
#[derive(Clone, Copy)]
pub struct Fed {
    pub used: usize,
    pub step: Step,
}
