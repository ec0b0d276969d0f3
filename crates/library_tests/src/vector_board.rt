// The vector board on the example table, and on a table where one wait is handed on twice.
use crate::bytes::{Draft, example_table, row};
use board::Board;
use std::process::Abort;
use std::test::Fail;
use table::lawful::Table;
use table::rows::CoreSet;
use vectors::vector_board::VectorBoard;

// A board that is open on the table.
fn opened(table: &Table) -> VectorBoard {
    let mut board = VectorBoard::new();
    board.open(table);
    board
}

// The core starts its next task and ends it.
fn runs(rt: &impl Abort, board: &mut VectorBoard, core: u32) {
    assert!(rt; board.start(core));
    assert!(rt; board.end(core));
}

#[test]
fn first_vectors_of_the_example(rt: HostRuntime) -> Result<(), Fail> {
    let board = opened(&example_table(&rt, rt.alloc())?);
    assert_eq!(rt; board.ready(7), CoreSet { bits: 0b001 });
    assert_eq!(rt; board.ready(2), CoreSet::NONE);
    assert_eq!(rt; board.ready(6), CoreSet { bits: 0b101 });
    assert_eq!(rt; board.notification(8), CoreSet { bits: 0b011 });
    assert_eq!(rt; board.notification(5), CoreSet::NONE);
    assert_eq!(rt; board.target(9, 1), Some(6));
    assert_eq!(rt; board.target(9, 0), None);
    assert_eq!(rt; board.status(1), CoreSet::NONE);
    assert_eq!(rt; board.ready(10), CoreSet::NONE);
    assert_eq!(rt; board.status(8), CoreSet::NONE);
    Ok(())
}

#[test]
fn the_example_eased_at_task_6(rt: HostRuntime) -> Result<(), Fail> {
    let mut board = opened(&example_table(&rt, rt.alloc())?);
    // A core is a number: there is no list of cores to walk.
    for core in 0..3 {
        runs(&rt, &mut board, core);
    }
    assert!(rt; board.start(2));
    runs(&rt, &mut board, 0);
    runs(&rt, &mut board, 0);
    assert_eq!(rt;
        board.ready(6),
        CoreSet { bits: 0b100 },
        "an unused notice clears the ready bit"
    );
    runs(&rt, &mut board, 1);
    runs(&rt, &mut board, 0);
    assert_eq!(rt; board.status(1), CoreSet { bits: 0b001 });
    assert!(rt; !board.clear(1));
    assert!(rt; board.easable(1));
    assert!(rt; board.ease(1));
    assert_eq!(rt; board.ready(6), CoreSet::NONE);
    assert_eq!(rt; board.ready(7), CoreSet { bits: 0b101 });
    assert_eq!(rt; board.target(9, 1), Some(7));
    assert_eq!(rt;
        board.status(1),
        CoreSet { bits: 0b001 },
        "the notice for task 7 stays"
    );
    runs(&rt, &mut board, 1);
    assert!(rt; !board.clear(1), "task 9 has not ended");
    assert!(rt; board.end(2));
    assert!(rt; board.start(1));
    Ok(())
}

#[test]
fn a_wait_handed_on_twice(rt: HostRuntime) -> Result<(), Fail> {
    // Tasks 1, 2 and 3 of core 0 all wait for task 0 of core 1.
    let rows = [
        row(1, 0, 100),
        row(0, 100, 110),
        row(0, 110, 120),
        row(0, 120, 130),
    ];
    let mut board = opened(&Draft::new(2, 130, &rows).loaded(&rt, rt.alloc())?);
    assert_eq!(rt; board.ready(1), CoreSet { bits: 0b10 });
    assert_eq!(rt; board.ready(2), CoreSet::NONE);
    assert!(rt; board.start(1));
    assert!(rt; board.ease(0));
    assert_eq!(rt; board.target(0, 0), Some(2));
    runs(&rt, &mut board, 0);
    assert!(rt; !board.clear(0));
    assert!(rt; board.ease(0));
    assert_eq!(rt; board.target(0, 0), Some(3));
    assert_eq!(rt; board.ready(3), CoreSet { bits: 0b10 });
    runs(&rt, &mut board, 0);
    assert!(rt; !board.clear(0));
    assert!(rt; board.end(1));
    assert!(rt; board.start(0));
    Ok(())
}

#[test]
fn orders_out_of_step_change_nothing(rt: HostRuntime) -> Result<(), Fail> {
    let mut board = opened(&example_table(&rt, rt.alloc())?);
    assert!(rt; !board.end(0));
    assert!(rt; !board.ease(0));
    assert!(rt; !board.start(3));
    assert!(rt; !board.ease(4_000_000_000));
    runs(&rt, &mut board, 0);
    assert!(rt; !board.start(0));
    assert_eq!(rt; board.next(0), Some(1));
    assert_eq!(rt; board.status(2), CoreSet { bits: 0b001 });
    Ok(())
}
