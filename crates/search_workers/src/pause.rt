//! Pauses between rounds that got no task.

use search_model::Scenario;
use std::{hint, thread};

// How many spins the first pause has, about a microsecond, and the longest one, some hundred microseconds.
const SHORTEST: u32 = 32;

const LONGEST: u32 = 4096;

// A number is drawn when a closing begins, and a closing goes over the cells some times for each period. So after this
// many spins in which no number was drawn, a tenth of a millisecond, and so many more for each cell and period,
// nobody closes a prefix any more.
const PATIENCE: u32 = 2048;

const PATIENCE_EACH: u32 = 32;

/// What a worker without a task sees of the others: how many numbers were drawn when it looked last, for how many spins
/// that number has stood still, and for how many it may. Each pause is twice as long as the one before, up to the
/// longest.
#[derive(Drop)]
pub struct Lookout {
    drawn: u64,
    still: u32,
    patience: u32,
    pause: u32,
}

impl Lookout {
    /// A lookout that has seen nothing yet, of a search of this scenario.
    pub fn new(sc: &Scenario) -> Lookout {
        Lookout {
            drawn: 0,
            still: 0,
            patience: patience_for(sc),
            pause: SHORTEST,
        }
    }

    // Whether somebody may be closing a prefix, where so many numbers were drawn: the search begins with a closing.
    fn is_alive(&mut self, drawn: u64) -> bool {
        if drawn != self.drawn {
            self.drawn = drawn;
            self.still = 0;
        }
        drawn == 0 || self.still < self.patience
    }

    /// Pauses as long as the search is alive, where so many numbers were drawn.
    pub fn pause(&mut self, drawn: u64) {
        if !self.is_alive(drawn) {
            return;
        }
        spin(self.pause);
        thread::yield_now();
        self.still = self.still.saturating_add(self.pause);
        self.pause = self.pause.saturating_mul(2).min(LONGEST);
    }
}

// For how many spins a number may stand still while somebody closes a prefix of this scenario.
fn patience_for(sc: &Scenario) -> u32 {
    let cells = u32::from(sc.cells());
    let more = PATIENCE_EACH.saturating_mul(cells.saturating_mul(sc.horizon()));
    PATIENCE.saturating_add(more)
}

// Spins so often.
fn spin(times: u32) {
    for _ in 0..times {
        hint::spin_loop();
    }
}
