//! Room to take the workers of a search apart.

ghost use Rattle.std.specs.Prelude.{◌≡◌, ◌<◌, ◌≤◌, ◌++◌, ◌∷◌, [], vec_len, vec_capacity, IfOk};
ghost use Rattle.search_workers.specs.Rooms.{IsRoomFor};

use crate::agenda::Agenda;
use crate::desk::Desk;
use exact_parts::NoMemory;
use incumbent_board::BoardSeat;
use node_tickets::TicketSeat;
use search_model::Path;
use std::alloc::Global;
use steal_pool::Kit;

/// Room for the kits, the agendas, the desks and the seats of all workers. It is taken before they go, so that the tickets and the board
/// can be closed with all their seats at the end even where memory has run out. The passes of the deques are joined by
/// `settle`, which takes memory of its own, and are dropped where it is refused.
#[derive(Drop)]
pub struct Room {
    pub kits: Vec<Kit<Path>>,
    pub agendas: Vec<Agenda>,
    pub desks: Vec<Desk>,
    pub tickets: Vec<TicketSeat>,
    pub seats: Vec<BoardSeat>,
}

impl Room {
    /// Room for so many workers.
    pub fn new(alloc: Global, workers: usize) -> Result<Room, NoMemory>
        ensures { IfOk result (IsRoomFor workers) }
    {
        Ok(Room {
            kits: Vec::with_capacity(alloc, workers)?,
            agendas: Vec::with_capacity(alloc, workers)?,
            desks: Vec::with_capacity(alloc, workers)?,
            tickets: Vec::with_capacity(alloc, workers)?,
            seats: Vec::with_capacity(alloc, workers)?,
        })
    }
}

/// Puts an item into room that is there.
pub(crate) fn push_into_room<T: Drop>(items: &mut Vec<T>, item: T)
    requires { vec_len items.old < vec_capacity items.old }
    ensures items { items.new.items ≡ items.old.items ++ item ∷ [] }
    ensures room { vec_capacity items.old ≤ vec_capacity items.new }
{
    let Ok(()) = items.push(item) else {
        unreachable!()
    };
}
