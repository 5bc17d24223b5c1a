ghost use Rattle.std.specs.Prelude.{◌≡◌, ◌<◌, ◌≤◌, ℕ, All, length, slice_index_or};
ghost use Rattle.node_tickets.specs.Seats.{IsSeatOf, KeepsSeat, AreAllSeats, MayDraw, MOST_NUMBERS};

use exact_parts::NoMemory;
use node_tickets::{Draw, TicketSeat, Tickets};
use std::alloc::Global;
use std::test::Fail;
use std::thread;
use std::thread::Threads;

#[test]
fn numbers_come_in_order(rt: HostRuntime) -> Result<(), Fail> {
    let (tickets, mut seats) = Tickets::start(rt.alloc(), 2, 2)?;
    let mut second = seats.pop().ok_or("no seat")?;
    let mut first = seats.pop().ok_or("no seat")?;
    assert_eq!(rt; tickets.draw(&mut first), Draw::Number(0));
    assert_eq!(rt; tickets.draw(&mut second), Draw::Number(1));
    assert_eq!(rt; tickets.draw(&mut first), Draw::Full(2));
    seats.push(first)?;
    seats.push(second)?;
    assert_eq!(rt; tickets.close(seats), 3);
    Ok(())
}

// Draws until it gets `Full`.
fn draw_all(tickets: &Tickets, seat: &mut TicketSeat)
    requires seat { IsSeatOf tickets.now seat.old }
    requires may { MayDraw seat.old }
    ensures { KeepsSeat tickets.now seat.old seat.new }
{
    for _drawn in 0..1000 {
        if let Draw::Full(_) = tickets.draw(seat) {
            return;
        }
    }
}

// Each seat does so in a thread.
fn draw_by_each<R: Threads + Sync>(rt: &R, tickets: &Tickets, seats: &mut [TicketSeat])
    requires each { All (IsSeatOf tickets.now) seats.old }
    requires may { All MayDraw seats.old }
    ensures many { length seats.new ≡ length seats.old }
    ensures each { (i : ℕ) (d : _) → i < length seats.old →
        KeepsSeat tickets.now (slice_index_or seats.old i d) (slice_index_or seats.new i d) }
{
    thread::for_each_mut(rt, seats, 4, &|_, seat| draw_all(tickets, seat));
}

// And all seats are there as before.
fn draw_in_threads<R: Threads + Sync>(rt: &R, tickets: &Tickets, seats: &mut [TicketSeat])
    requires all { AreAllSeats tickets.now seats.old }
    requires may { All MayDraw seats.old }
    ensures { AreAllSeats tickets.now seats.new }
{
    draw_by_each(rt, tickets, seats);
}

// How many numbers are drawn until each seat has got `Full`.
fn drawn_in_threads<R: Threads + Sync>(
    rt: &R,
    alloc: Global,
    limit: u64,
    seats: u32,
) -> Result<u64, NoMemory>
    requires limit { (1 ≤ limit) × (limit ≤ MOST_NUMBERS) }
    requires seats { (1 ≤ seats) × (seats ≤ 16) }
{
    let (tickets, mut seats) = Tickets::start(alloc, limit, seats)?;
    draw_in_threads(rt, &tickets, seats.as_mut_slice());
    Ok(tickets.close(seats))
}

#[test]
fn threads_draw_each_number_once(rt: HostRuntime) -> Result<(), Fail> {
    assert_eq!(rt; drawn_in_threads(&rt, rt.alloc(), 50, 2)?, 52);
    assert_eq!(rt; drawn_in_threads(&rt, rt.alloc(), 3, 16)?, 19);
    Ok(())
}
