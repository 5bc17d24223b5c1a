ghost use Rattle.std.specs.Prelude.{◌≤◌, IfOk};
ghost use Rattle.bound_tree.specs.Close.{IsExact};
ghost use Rattle.bound_tree.specs.declared.tree.TheConstants.{MOST_NODES};

use bound_tree::{Kind, TreeNode};
use opening_path::opening;
use scenario_text::read_scenario_alone;
use search_model::{Scenario, Standing};
use search_workers::{Found, Gate, OpenGate, Order, Partial, SearchStop, search};
use std::alloc::{AllocGlobal, Global};
use std::hint;
use std::sync::Wait;
use std::sync::atomic::{AtomicU64, Ordering};
use std::test::Fail;
use std::thread::Threads;
use worked_scenarios::{BY_THE_WAY, FOUR_CELLS, TWO_CELLS};

// The scenario of a text.
fn scenario_of(alloc: Global, text: &str) -> Result<Scenario, Fail> {
    match read_scenario_alone(alloc, text.as_bytes()) {
        Ok(sc) => Ok(sc),
        Err(_) => Err(Fail::from("no scenario")),
    }
}

// A record of a tree: the letter of its kind, its number if any, and its prefix.
type Row = (u8, u128, &'static [u8]);

// The records over two cells: of equal values the least path is best.
const EVEN: [Row; 5] = [
    (b'B', 0, &[]),
    (b'B', 0, &[0]),
    (b'W', 12, &[0, 0]),
    (b'W', 12, &[0, 1]),
    (b'M', 12, &[1]),
];

// The records over four cells where the first cell was closed under the opening.
const UNDER_THE_OPENING: [Row; 7] = [
    (b'B', 0, &[]),
    (b'B', 0, &[0]),
    (b'W', 3, &[0, 0]),
    (b'W', 3, &[0, 1]),
    (b'B', 0, &[2]),
    (b'W', 2, &[2, 2]),
    (b'W', 6, &[2, 3]),
];

// The records over four cells where the first cell was closed under the best path.
const UNDER_THE_BEST: [Row; 5] = [
    (b'B', 0, &[]),
    (b'M', 3, &[0]),
    (b'B', 0, &[2]),
    (b'W', 2, &[2, 2]),
    (b'W', 6, &[2, 3]),
];

// The records of one worker over three cells. Two looks at the first cell find 6. The second cell in place of the first of
// them makes it 7; of what it has found no later look finds more, since none gets there.
const BY_AN_EXCHANGE: [Row; 11] = [
    (b'B', 0, &[]),
    (b'B', 0, &[0]),
    (b'X', 6, &[0, 0]),
    (b'M', 12, &[0, 2]),
    (b'B', 0, &[1]),
    (b'B', 0, &[1, 0]),
    (b'B', 0, &[1, 0, 0]),
    (b'W', 7, &[1, 0, 0, 0]),
    (b'W', 13, &[1, 0, 0, 2]),
    (b'M', 13, &[1, 0, 2]),
    (b'M', 13, &[1, 1]),
];

// The letter of a kind, and its number if any.
fn letter_of(kind: &Kind) -> (u8, u128) {
    match kind {
        Kind::Branch => (b'B', 0),
        Kind::Whole(value) => (b'W', *value),
        Kind::Mean(bound) => (b'M', *bound),
        Kind::Exchange(bound, _) => (b'X', *bound),
        _ => (b'?', 0),
    }
}

// Whether these are the records of a tree.
fn is_tree(nodes: &[TreeNode], rows: &[Row]) -> bool {
    if nodes.len() != rows.len() {
        return false;
    }
    for (node, (letter, number, prefix)) in nodes.iter().zip(rows) {
        if letter_of(&node.kind) != (*letter, *number) || node.prefix.cells() != *prefix {
            return false;
        }
    }
    true
}

// Whether a standing has this value and this path.
fn is_standing(standing: &Standing, value: u128, path: &[u8]) -> bool {
    standing.value == value && standing.path.cells() == path
}

// The opening, which is exact.
fn first_of(alloc: Global, sc: &Scenario) -> Result<Standing, Fail>
    ensures { IfOk result (IsExact sc.now) }
{
    sc.recall_sound();
    Ok(opening(alloc, sc)?)
}

// What some workers find from the opening on.
fn found_by<R: Threads + Wait + Sync + AllocGlobal, G: Gate>(
    rt: &R,
    sc: &Scenario,
    workers: u32,
    order: Order,
    gate: &G,
) -> Result<Found, Fail>
    requires { (1 ≤ workers) × (workers ≤ 16) }
{
    let first = first_of(rt.alloc(), sc)?;
    match search(rt, sc, &first, workers, 1_048_576, order, gate) {
        Ok(found) => Ok(found),
        Err(SearchStop::NoMemory) => Err("out of memory".into()),
        Err(SearchStop::Full(_)) => Err("out of nodes".into()),
    }
}

// The same over the scenario of a text.
fn found_in<R: Threads + Wait + Sync + AllocGlobal, G: Gate>(
    rt: &R,
    text: &str,
    workers: u32,
    order: Order,
    gate: &G,
) -> Result<Found, Fail>
    requires { (1 ≤ workers) × (workers ≤ 16) }
{
    let sc = scenario_of(rt.alloc(), text)?;
    found_by(rt, &sc, workers, order, gate)
}

// Whether some workers find the least of equal paths over two cells.
fn finds_the_least<R: Threads + Wait + Sync + AllocGlobal, G: Gate>(
    rt: &R,
    workers: u32,
    gate: &G,
) -> Result<bool, Fail>
    requires { (1 ≤ workers) × (workers ≤ 16) }
{
    let found = found_in(rt, TWO_CELLS, workers, Order::DepthFirst, gate)?;
    Ok(is_standing(&found.best, 12, &[0, 0]) && is_tree(found.tree.nodes(), &EVEN))
}

// Whether the better path over four cells was found, with one of these trees.
fn is_the_better(found: &Found, trees: &[&[Row]]) -> bool {
    for tree in trees {
        if is_tree(found.tree.nodes(), tree) {
            return is_standing(&found.best, 6, &[2, 3]);
        }
    }
    false
}

// Whether some workers find the path over four cells that is better than the opening, with one of these trees.
fn finds_the_better<R: Threads + Wait + Sync + AllocGlobal, G: Gate>(
    rt: &R,
    workers: u32,
    gate: &G,
    trees: &[&[Row]],
) -> Result<bool, Fail>
    requires { (1 ≤ workers) × (workers ≤ 16) }
{
    let found = found_in(rt, FOUR_CELLS, workers, Order::DepthFirst, gate)?;
    Ok(is_the_better(&found, trees))
}

#[test]
fn the_best_paths_are_found_by_1_2_and_16_workers(rt: HostRuntime) -> Result<(), Fail> {
    for workers in [1, 2, 16] {
        assert!(rt; finds_the_least(&rt, workers, &OpenGate)?);
        assert!(rt;
            finds_the_better(
                &rt,
                workers,
                &OpenGate,
                &[&UNDER_THE_OPENING, &UNDER_THE_BEST]
            )?
        );
    }
    assert!(rt; finds_the_better(&rt, 1, &OpenGate, &[&UNDER_THE_OPENING])?);
    Ok(())
}

// Whether the third record of a search says that a position goes in the place of the last but one.
fn goes_by(found: &Found, position: u8) -> bool {
    match found.tree.nodes() {
        [_, _, node, ..] => match node.kind {
            Kind::Exchange(_, by) => by == position,
            _ => false,
        },
        _ => false,
    }
}

#[test]
fn a_prefix_is_closed_by_another_that_stands_in_for_it(rt: HostRuntime) -> Result<(), Fail> {
    let found = found_in(&rt, BY_THE_WAY, 1, Order::DepthFirst, &OpenGate)?;
    assert!(rt; is_standing(&found.best, 13, &[1, 0, 0, 2]));
    assert!(rt; is_tree(found.tree.nodes(), &BY_AN_EXCHANGE));
    assert!(rt; goes_by(&found, 1));
    Ok(())
}

// How often a hold tries before it lets go.
const MOST_TRIES: u32 = 50_000_000;

// A gate for two workers. It holds worker 0 after its first node until worker 1 has closed as many as it says, and worker
// 1 where it found no task until worker 0 has closed its first node; each hold lets go after `MOST_TRIES` tries, and is
// then counted.
#[derive(Drop)]
struct Relay {
    least: u64,
    begun: AtomicU64,
    closed: AtomicU64,
    late: AtomicU64,
}

impl Relay {
    fn new(least: u64) -> Relay {
        Relay {
            least,
            begun: AtomicU64::new(0),
            closed: AtomicU64::new(0),
            late: AtomicU64::new(0),
        }
    }

    // Waits until a number is at least so great, or the tries are used up.
    fn hold(&self, number: &AtomicU64, least: u64) {
        for _ in 0..MOST_TRIES {
            if number.load(Ordering::SeqCst) >= least {
                return;
            }
            hint::spin_loop();
        }
        self.late.fetch_add(1, Ordering::SeqCst);
    }
}

impl Gate for Relay {
    fn turn(&self, worker: u32, closed: u64) {
        if worker == 1 {
            self.closed.store(closed, Ordering::SeqCst);
        } else if closed == 1 {
            self.begun.store(1, Ordering::SeqCst);
            self.hold(&self.closed, self.least);
        }
    }

    fn idle(&self, worker: u32, _round: u32) {
        if worker == 1 {
            self.hold(&self.begun, 1);
        }
    }
}

// Whether both workers took their turns in time.
fn was_kept(gate: &Relay) -> bool {
    gate.begun.load(Ordering::SeqCst) == 1
        && gate.closed.load(Ordering::SeqCst) >= gate.least
        && gate.late.load(Ordering::SeqCst) == 0
}

// Neither worker can go on before the other took a turn: a search that ran one after the other, or alone, would be late.
// Over four cells worker 1 steals the third cell and finds the best path; worker 0, held until then, rules the first cell
// out by it.
#[test]
fn two_workers_go_beside_each_other_and_heed_what_they_find(rt: HostRuntime) -> Result<(), Fail> {
    let gate = Relay::new(1);
    assert!(rt; finds_the_least(&rt, 2, &gate)?);
    assert!(rt; was_kept(&gate));
    let gate = Relay::new(3);
    assert!(rt; finds_the_better(&rt, 2, &gate, &[&UNDER_THE_BEST])?);
    assert!(rt; was_kept(&gate));
    Ok(())
}

// Whether four nodes closed the least path and what stands before it, and the second cell waits.
fn is_part_of_four(part: &Partial) -> bool {
    let [waits] = part.waiting.as_slice() else {
        return false;
    };
    part.closed.len() == 4
        && waits.cells() == [1].as_slice()
        && is_standing(&part.best, 12, &[0, 0])
}

// Whether what one worker has of two cells is right where so many nodes have run out; none where they suffice.
fn is_right_over<R: Threads + Wait + Sync + AllocGlobal>(
    rt: &R,
    sc: &Scenario,
    nodes: u64,
) -> Result<Option<bool>, Fail>
    requires { (1 ≤ nodes) × (nodes ≤ MOST_NODES) }
{
    let first = first_of(rt.alloc(), sc)?;
    match search(rt, sc, &first, 1, nodes, Order::DepthFirst, &OpenGate) {
        Ok(_) => Ok(None),
        Err(SearchStop::NoMemory) => Err("out of memory".into()),
        Err(SearchStop::Full(part)) => Ok(Some(is_part_of_four(&part))),
    }
}

fn is_right_part<R: Threads + Wait + Sync + AllocGlobal>(
    rt: &R,
    nodes: u64,
) -> Result<Option<bool>, Fail>
    requires { (1 ≤ nodes) × (nodes ≤ MOST_NODES) }
{
    let sc = scenario_of(rt.alloc(), TWO_CELLS)?;
    is_right_over(rt, &sc, nodes)
}

#[test]
fn four_nodes_are_too_few_and_five_suffice(rt: HostRuntime) -> Result<(), Fail> {
    assert_eq!(rt; is_right_part(&rt, 4)?, Some(true));
    assert_eq!(rt; is_right_part(&rt, 5)?, None);
    Ok(())
}

// Whether some workers who go by the greatest number find the better path over four cells, with one of these trees.
fn finds_by_numbers<R: Threads + Wait + Sync + AllocGlobal>(
    rt: &R,
    workers: u32,
    trees: &[&[Row]],
) -> Result<bool, Fail>
    requires { (1 ≤ workers) × (workers ≤ 16) }
{
    let found = found_in(rt, FOUR_CELLS, workers, Order::GreatestFirst, &OpenGate)?;
    Ok(is_the_better(&found, trees))
}

// The third cell has the greatest number, and so has the best path behind it: by the greatest number one worker rules the
// first cell out by that.
#[test]
fn the_greatest_number_leads_to_the_best_path(rt: HostRuntime) -> Result<(), Fail> {
    assert!(rt; finds_by_numbers(&rt, 1, &[&UNDER_THE_BEST])?);
    for workers in [2, 4, 16] {
        assert!(rt; finds_by_numbers(&rt, workers, &[&UNDER_THE_OPENING, &UNDER_THE_BEST])?);
    }
    Ok(())
}

// The first three prefixes over four cells by the greatest number, in the order in which one worker closes them.
const BY_NUMBERS: [Row; 3] = [(b'B', 0, &[]), (b'B', 0, &[2]), (b'W', 6, &[2, 3])];

// Whether three nodes closed these, and the first cell and the other path wait.
fn is_part_by_numbers(part: &Partial) -> bool {
    is_tree(&part.closed, &BY_NUMBERS)
        && part.waiting.len() == 2
        && is_standing(&part.best, 6, &[2, 3])
}

// Whether what one worker has of a scenario by the greatest number is right where three nodes have run out.
fn is_right_by_numbers<R: Threads + Wait + Sync + AllocGlobal>(
    rt: &R,
    sc: &Scenario,
) -> Result<bool, Fail> {
    let first = first_of(rt.alloc(), sc)?;
    match search(rt, sc, &first, 1, 3, Order::GreatestFirst, &OpenGate) {
        Ok(_) => Ok(false),
        Err(SearchStop::NoMemory) => Err("out of memory".into()),
        Err(SearchStop::Full(part)) => Ok(is_part_by_numbers(&part)),
    }
}

#[test]
fn the_greatest_number_is_closed_first(rt: HostRuntime) -> Result<(), Fail> {
    let sc = scenario_of(rt.alloc(), FOUR_CELLS)?;
    assert!(rt; is_right_by_numbers(&rt, &sc)?);
    Ok(())
}
