ghost use Rattle.std.specs.Prelude.{◌≡◌, ◌≢◌, ◌<◌, length};
ghost use Rattle.steal_pool.specs.Pools.{IsWhole};

use std::test::Fail;
use std::thread;
use std::thread::Threads;
use steal_pool::{Kit, Pool, Theft, sent_kit, settle};

fn put_at(kits: &mut Vec<Kit<u32>>, place: usize, task: u32) -> Result<(), u32>
    requires whole { IsWhole kits.old.items }
    requires place { place < length kits.old.items }
    ensures whole { IsWhole kits.new.items }
    ensures many { length kits.new.items ≡ length kits.old.items }
{
    kits[place].put(task)
}

fn own_at(kits: &mut Vec<Kit<u32>>, place: usize) -> Option<u32>
    requires whole { IsWhole kits.old.items }
    requires place { place < length kits.old.items }
    ensures whole { IsWhole kits.new.items }
    ensures many { length kits.new.items ≡ length kits.old.items }
{
    kits[place].own()
}

fn steal_at(kits: &mut Vec<Kit<u32>>, place: usize, victim: u32) -> Theft<u32>
    requires whole { IsWhole kits.old.items }
    requires place { place < length kits.old.items }
    requires victim { victim < length kits.old.items }
    requires other { victim ≢ place }
    ensures whole { IsWhole kits.new.items }
    ensures many { length kits.new.items ≡ length kits.old.items }
{
    kits[place].steal(victim)
}

#[test]
fn tasks_are_taken_in_order(rt: HostRuntime) -> Result<(), Fail> {
    let mut kits = Pool::make(rt.alloc(), 2)?;
    put_at(&mut kits, 0, 7).ok().ok_or("full")?;
    put_at(&mut kits, 0, 8).ok().ok_or("full")?;
    assert!(rt; matches!(steal_at(&mut kits, 1, 0), Theft::Got(7)));
    assert_eq!(rt; own_at(&mut kits, 0), Some(8));
    assert_eq!(rt; own_at(&mut kits, 0), None);
    assert!(rt; matches!(steal_at(&mut kits, 1, 0), Theft::Empty));
    assert!(rt; settle(rt.alloc(), kits)?.is_empty());
    Ok(())
}

#[test]
fn what_nobody_took_is_left(rt: HostRuntime) -> Result<(), Fail> {
    let mut kits = Pool::make(rt.alloc(), 2)?;
    put_at(&mut kits, 0, 7).ok().ok_or("full")?;
    put_at(&mut kits, 0, 8).ok().ok_or("full")?;
    assert!(rt; matches!(steal_at(&mut kits, 1, 0), Theft::Got(7)));
    assert_eq!(rt; settle(rt.alloc(), kits)?.as_slice(), [8].as_slice());
    Ok(())
}

// How many tasks the kit at a place of a pool takes before it hands one back.
fn room_at(kits: &mut Vec<Kit<u32>>, place: usize) -> u32
    requires whole { IsWhole kits.old.items }
    requires place { place < length kits.old.items }
    ensures whole { IsWhole kits.new.items }
    ensures many { length kits.new.items ≡ length kits.old.items }
{
    for task in 0..5000 {
        if put_at(kits, place, task).is_err() {
            return task;
        }
    }
    5000
}

#[test]
fn a_deque_has_room_for_4096_tasks(rt: HostRuntime) -> Result<(), Fail> {
    let mut kits = Pool::make(rt.alloc(), 1)?;
    assert_eq!(rt; room_at(&mut kits, 0), 4096);
    assert_eq!(rt; own_at(&mut kits, 0), Some(0));
    assert_eq!(rt; put_at(&mut kits, 0, 9), Err(9));
    Ok(())
}

// A kit puts the number of its place, in a thread.
fn put_place(kit: &mut Kit<u32>) {
    let place = kit.place();
    let _ = kit.put(place);
}

fn put_by_each<R: Threads + Sync>(rt: &R, kits: &mut [Kit<u32>]) {
    thread::for_each_mut(rt, kits, 2, &|_, kit| put_place(kit));
}

#[test]
fn kits_work_in_threads(rt: HostRuntime) -> Result<(), Fail> {
    let mut kits = Pool::make(rt.alloc(), 2)?;
    put_by_each(&rt, kits.as_mut_slice());
    for kit in kits {
        let mut kit = sent_kit(kit);
        assert_eq!(rt; kit.own(), Some(kit.place()));
    }
    Ok(())
}
