use search_model::Name;

/// What the words of the command line ask for.
#[derive(Clone, Copy)]
pub enum Request {
    /// `plan [--workers N] [--nodes N]`: plan the scenario of the input with so many workers, by a tree of at most so many
    /// records.
    Plan {
        workers: u32,
        nodes: u64,
    },
    /// `check`: check the plan that follows the scenario in the input.
    Check,
    /// `report [--json yes]`: what the accepted plan that follows the scenario in the input finds, and what it leaves.
    Report {
        json: bool,
    },
    /// `make NUMBER`: the scenario that is made from a number. Nothing is read.
    Make {
        number: u64,
    },
    /// `drill NUMBER [--workers N]`: make a scenario, plan it, read the plan again and check it. Nothing is read.
    Drill {
        number: u64,
        workers: u32,
    },
    /// `convert`: the accepted plan that follows the scenario in the input, as its text of the version that the horizon asks for.
    Convert,
    /// `gap [--workers N] [--nodes N]`: plan the scenario of the input with so many workers, until it is planned or so many
    /// records are made.
    Gap {
        workers: u32,
        nodes: u64,
    },
    /// `checkgap`: check the gap plan that follows the scenario in the input.
    CheckGap,
    /// `replan [--workers N] [--nodes N] flown NAME ..`: plan the scenario of the input behind the prefix of the names, which
    /// stand from this word on; the command is word 0.
    Replan {
        workers: u32,
        nodes: u64,
        flown: usize,
    },
    /// `map flown NAME ..`: where the person may be behind the prefix of the names, which stand from this word on.
    Map {
        flown: usize,
    },
    /// `duo [--workers N] [--nodes N] start NAME`: plan for a second searcher, too, who starts at the position of this name.
    Duo {
        workers: u32,
        nodes: u64,
        second: Name,
    },
}

/// How many workers a search has where no option says so.
pub const WORKERS: u32 = 4;

/// The most workers that a search may have.
pub const MOST_WORKERS: u32 = 16;

/// The most records that `gap` may make.
pub const MOST_CLOSED: u64 = 65_536;

/// The most names that words may have behind `flown`.
pub const MOST_FLOWN: usize = 32;

/// How many bytes the scenario of `plan` may have.
pub const MOST_SCENARIO: usize = 1_048_576;

/// How many bytes a scenario and the plan or gap plan behind it may have.
pub const MOST_JUDGED: usize = 336_592_896;
