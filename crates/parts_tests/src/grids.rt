use crate::threads::crosses_threads;
use search_grid::{Grid, GridFault};
use std::alloc::{AllocError, Global};
use std::test::Fail;

fn rows_of(alloc: Global, lists: &[&[u8]]) -> Result<Vec<Vec<u8>>, AllocError> {
    lists
        .iter()
        .map(|list| Vec::from_slice(alloc, list))
        .try_collect(alloc)
}

fn has_moves_in_order(grid: &Grid) -> bool {
    grid.cells() == 2
        && grid.moves(0) == [0, 1].as_slice()
        && grid.is_move(0, 1)
        && !grid.is_move(1, 1)
}

fn has_side_neighbours(grid: &Grid) -> bool {
    grid.cells() == 9 && grid.moves(4) == [1, 3, 4, 5, 7].as_slice()
}

#[test]
fn moves_come_in_ascending_order(rt: HostRuntime) -> Result<(), Fail> {
    let grid = Grid::new(rows_of(rt.alloc(), &[&[1, 0], &[0]])?)?;
    let ordered = has_moves_in_order(&grid);
    drop(grid);
    assert!(rt; ordered);
    crosses_threads::<Grid>();
    Ok(())
}

#[test]
fn a_field_has_side_neighbours(rt: HostRuntime) -> Result<(), Fail> {
    let grid = Grid::four_neighbour(rt.alloc(), 3, 3)?;
    let beside = has_side_neighbours(&grid);
    drop(grid);
    assert!(rt; beside);
    Ok(())
}

const FAULTY: [(&[&[u8]], GridFault); 6] = [
    (&[], GridFault::CellCount),
    (&[&[0; 64]], GridFault::DoubleMove(0)),
    (&[&[0; 65]], GridFault::TooManyMoves(0)),
    (&[&[0], &[0, 0], &[]], GridFault::DoubleMove(1)),
    (&[&[0], &[], &[5]], GridFault::NoMove(1)),
    (&[&[1, 0], &[0], &[5]], GridFault::OutOfRange(2)),
];

// The least cell that has a fault is named, and of its faults the first.
#[test]
fn faults_have_their_order(rt: HostRuntime) -> Result<(), Fail> {
    for (lists, fault) in FAULTY {
        assert_eq!(rt; Grid::new(rows_of(rt.alloc(), lists)?).err(), Some(fault));
    }
    Ok(())
}
