ghost use Rattle.std.specs.Prelude.{ℕ, ◌≡◌, ◌<◌, ◌^◌, length, slice_index_or};
ghost use Rattle.incumbent_board.specs.Boards.{SeatView, AreAllSeats, IsSeatOf, IsSameSeat};

use incumbent_board::{Board, BoardSeat, Offer};
use search_model::{Path, Standing};
use std::sync::Wait;
use std::test::Fail;
use std::thread;
use std::thread::Threads;

fn standing(value: u64, cells: [u8; 2]) -> Standing
    ensures size { length result.path ≡ 2 }
    ensures value { result.value < 2 ^ 127 }
{
    let mut path = Path::empty();
    path.push(cells[0]);
    path.push(cells[1]);
    Standing {
        path,
        value: u128::from(value),
    }
}

fn is_standing(s: &Standing, value: u128, cells: [u8; 2]) -> bool {
    s.value == value && s.path.cells() == cells.as_slice()
}

fn is_behind(answer: Offer, value: u128, cells: [u8; 2]) -> bool {
    match answer {
        Offer::Placed => false,
        Offer::Behind(b) => is_standing(&b, value, cells),
    }
}

fn offer_at<R: Wait>(
    rt: &R,
    board: &Board,
    seats: &mut Vec<BoardSeat>,
    place: usize,
    s: Standing,
) -> Offer
    requires all { AreAllSeats board.now seats.old.items }
    requires place { place < length seats.old.items }
    requires size { length board.now.first.path ≡ length s.path }
    requires value { s.value < 2 ^ 127 }
    ensures all { AreAllSeats board.now seats.new.items }
    ensures many { length seats.new.items ≡ length seats.old.items }
{
    board.offer(rt, &mut seats[place], s)
}

#[test]
fn the_best_of_three_offers_stays(rt: HostRuntime) -> Result<(), Fail> {
    let (board, mut seats) = Board::start(rt.alloc(), standing(3, [0, 0]), 2)?;
    assert!(rt;
        matches!(
            offer_at(&rt, &board, &mut seats, 0, standing(6, [2, 3])),
            Offer::Placed
        )
    );
    assert!(rt;
        is_behind(
            offer_at(&rt, &board, &mut seats, 1, standing(6, [2, 4])),
            6,
            [2, 3]
        )
    );
    assert!(rt;
        is_behind(
            offer_at(&rt, &board, &mut seats, 1, standing(5, [0, 1])),
            6,
            [2, 3]
        )
    );
    let best = board.close(&rt, seats);
    assert!(rt; is_standing(&best, 6, [2, 3]));
    Ok(())
}

// Offers standings of rising values, those of each seat between those of the others, and looks after each.
fn offer_and_look<R: Wait>(rt: &R, board: &Board, seat: &mut BoardSeat, place: u64)
    requires seat { IsSeatOf board.now seat.old }
    requires size { length board.now.first.path ≡ 2 }
    requires place { place < 4 }
    ensures { IsSameSeat seat.old seat.new }
{
    for turn in 0..25 {
        board.offer(
            rt,
            seat,
            standing(4 * turn + place, [place as u8, turn as u8]),
        );
        board.look(rt, seat);
    }
}

fn offer_by_each<R: Threads + Wait + Sync>(rt: &R, board: &Board, seats: &mut [BoardSeat])
    requires all { AreAllSeats board.now seats.old }
    requires size { length board.now.first.path ≡ 2 }
    ensures many { length seats.new ≡ length seats.old }
    ensures each { (k : ℕ) (s : SeatView) → k < length seats.new →
        IsSameSeat (slice_index_or seats.old k s) (slice_index_or seats.new k s) }
    ensures all { AreAllSeats board.now seats.new }
{
    thread::for_each_mut(
        rt,
        seats,
        4,
        &|place, seat| { offer_and_look(rt, board, seat, place as u64 % 4) },
    );
}

#[test]
fn four_threads_leave_the_best_of_all(rt: HostRuntime) -> Result<(), Fail> {
    let (board, mut seats) = Board::start(rt.alloc(), standing(0, [0, 0]), 4)?;
    offer_by_each(&rt, &board, seats.as_mut_slice());
    let best = board.close(&rt, seats);
    assert!(rt; is_standing(&best, 99, [3, 24]));
    Ok(())
}
