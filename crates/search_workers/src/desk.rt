//! What a worker closes prefixes with.

ghost use Rattle.std.specs.Prelude.{◌≡◌, [], IfOk};
ghost use Rattle.bound_tree.specs.Close.{IsExact};
ghost use Rattle.node_tickets.specs.Seats.{IsFresh};
ghost use Rattle.incumbent_board.specs.Boards.{IsNewSeat};
ghost use Rattle.search_workers.specs.Desks.{IsInOrder};
ghost use Rattle.search_workers.specs.Seen.{desk_view};

use crate::incumbent::Incumbent;
use crate::stack::Stack;
use bound_tree::TreeNode;
use exact_parts::NoMemory;
use incumbent_board::BoardSeat;
use node_tickets::TicketSeat;
use path_node::Scratch;
use search_model::{Scenario, Standing};
use std::alloc::Global;

/// A worker's desk: its seats at the tickets and at the board, the standing that it uses, its private stack, the last
/// prefix of which is closed next, its records, and the tables with which it closes prefixes.
///
/// Contracts see it by `desk_view`.
#[derive(Drop)]
pub struct Desk {
    pub ticket: TicketSeat,
    pub incumbent: Incumbent,
    pub scratch: Scratch,
    pub stack: Stack,
    pub records: Vec<TreeNode>,
}

impl Desk {
    /// A desk at which nothing was done. Takes all the memory that it needs, but for its records.
    pub fn new(
        alloc: Global,
        sc: &Scenario,
        first: &Standing,
        seat: BoardSeat,
        ticket: TicketSeat,
    ) -> Result<Desk, NoMemory>
        requires exact { IsExact sc.now first.now }
        requires seat { IsNewSeat first.now seat }
        requires ticket { IsFresh ticket }
        ensures order { IfOk result (λ d. IsInOrder sc.now first.now (desk_view d)) }
        ensures ticket { IfOk result (λ d. d.ticket ≡ ticket) }
        ensures seat { IfOk result (λ d. d.incumbent.seat ≡ seat) }
        ensures standing { IfOk result (λ d. d.incumbent.standing ≡ first.now) }
        ensures empty { IfOk result (λ d. (d.stack ≡ []) × (d.records.items ≡ [])) }
    {
        let stack = Stack::new(alloc)?;
        let incumbent = Incumbent::start(alloc, sc, first, seat)?;
        Ok(Desk {
            ticket,
            incumbent,
            scratch: Scratch::tables(alloc, sc)?,
            stack,
            records: Vec::new(alloc),
        })
    }
}
