//! Making the workers of a search.

ghost use Rattle.std.specs.Prelude.{◌≡◌, ◌<◌, ◌≤◌, All, IfOk, length, map};
ghost use Rattle.bound_tree.specs.Close.{IsExact};
ghost use Rattle.steal_pool.specs.News.{IsFresh as IsFreshKit};
ghost use Rattle.node_tickets.specs.Seats.{IsFresh};
ghost use Rattle.incumbent_board.specs.Boards.{IsNewSeat};
ghost use Rattle.search_workers.specs.Workers.{IsReady};
ghost use Rattle.search_workers.specs.Crew.{IsComplete, MayGo};
ghost use Rattle.search_workers.specs.Rooms.{IsRoomFor};
ghost use Rattle.bound_tree.specs.declared.tree.TheConstants.{MOST_NODES};

use crate::agenda::Order;
use crate::crew::Member;
use crate::left::Left;
use crate::room::Room;
use crate::worker::Worker;
use exact_parts::NoMemory;
use incumbent_board::{Board, BoardSeat};
use node_tickets::{TicketSeat, Tickets};
use search_model::{Path, Scenario, Standing};
use std::alloc::Global;
use steal_pool::{Kit, Pool};

/// The workers of a search, with the tickets and the board at which they have their seats, and room to take them apart.
#[derive(Drop)]
pub struct Crew {
    pub tickets: Tickets,
    pub board: Board,
    pub members: Vec<Member>,
    pub room: Room,
}

// One worker for each kit, with a seat at the tickets and one at the board.
fn man_all(
    alloc: Global,
    sc: &Scenario,
    first: &Standing,
    mut kits: Vec<Kit<Path>>,
    mut tickets: Vec<TicketSeat>,
    mut seats: Vec<BoardSeat>,
    order: Order,
) -> Result<Vec<Member>, NoMemory>
    requires exact { IsExact sc.now first.now }
    requires kits { All IsFreshKit kits.items }
    requires tickets { All IsFresh tickets.items }
    requires seats { All (IsNewSeat first.now) seats.items }
    requires many { (length tickets.items ≡ length kits.items) × (length seats.items ≡ length kits.items) }
    ensures kits { IfOk result (λ crew. map (λ m. m.worker.kit) crew.items ≡ kits.items) }
    ensures tickets { IfOk result (λ crew. map (λ m. m.worker.desk.ticket) crew.items ≡ tickets.items) }
    ensures seats { IfOk result (λ crew. map (λ m. m.worker.desk.seat) crew.items ≡ seats.items) }
    ensures ready { IfOk result (λ crew. All (λ m. IsReady sc.now first.now m.worker) crew.items) }
{
    let mut crew = Vec::new(alloc);
    while let Some(kit) = kits.pop() {
        let Some(ticket) = tickets.pop() else {
            unreachable!()
        };
        let Some(seat) = seats.pop() else {
            unreachable!()
        };
        let worker = Worker::new(alloc, sc, first, kit, seat, ticket, order)?;
        crew.push(Member {
            worker,
            left: Left::Idle,
        })?;
    }
    crew.reverse();
    Ok(crew)
}

/// The workers of a new search from the standing `first`, 1 to 16 of them, with tickets for 1 to 1,048,576 nodes.
pub fn muster(
    alloc: Global,
    sc: &Scenario,
    first: &Standing,
    workers: u32,
    nodes: u64,
    order: Order,
) -> Result<Crew, NoMemory>
    requires exact { IsExact sc.now first.now }
    requires workers { (1 ≤ workers) × (workers ≤ 16) }
    requires nodes { (1 ≤ nodes) × (nodes ≤ MOST_NODES) }
    ensures limit { IfOk result (λ crew. crew.tickets.limit ≡ nodes) }
    ensures first { IfOk result (λ crew. crew.board.first ≡ first.now) }
    ensures many { IfOk result (λ crew. length crew.members.items ≡ workers) }
    ensures complete { IfOk result (λ crew. IsComplete crew.tickets crew.board crew.members.items) }
    ensures room { IfOk result (λ crew. IsRoomFor workers crew.room) }
    ensures ready { IfOk result (λ crew. All (λ m. MayGo sc.now crew.tickets crew.board m.worker) crew.members.items) }
{
    sc.recall_sound();
    let kits = Pool::make(alloc, workers)?;
    let (tickets, ticket_seats) = Tickets::start(alloc, nodes, workers)?;
    let (board, seats) = Board::start(alloc, *first, workers)?;
    let room = Room::new(alloc, workers as usize)?;
    let members = man_all(alloc, sc, first, kits, ticket_seats, seats, order)?;
    Ok(Crew {
        tickets,
        board,
        members,
        room,
    })
}
