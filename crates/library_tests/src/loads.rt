// Load, its refusals at their edges, and what a refusal keeps.
use crate::bytes::{Draft, example, example_table, header, reading, row, row_bytes};
use std::process::Abort;
use std::test::Fail;
use table::lawful::Table;
use table::loading::check as check_table;
use table::rows::Row;

// The bytes load as a table of so many tasks.
fn accepted(rt: &impl Abort, bytes: &[u8], tasks: u16) {
    let mut table = Table::new();
    assert_eq!(rt; table.load(bytes), Ok(tasks));
    assert_eq!(rt; table.tasks(), tasks);
}

// The bytes are refused with this number, row and offset.
fn refused(rt: &impl Abort, bytes: &[u8], number: u8, row: Option<u16>, offset: u32) {
    let told = check_table(bytes).map_err(|fault| (fault.number(), fault.row(), fault.offset()));
    assert_eq!(rt; told, Err((number, row, offset)));
}

#[test]
fn the_example_has_its_bytes(rt: HostRuntime) -> Result<(), Fail> {
    let bytes = Draft::new(3, 80, &example()).written(rt.alloc())?;
    assert_eq!(rt; bytes.len(), 116);
    assert_eq!(rt; header(3, 10, 80), [0x57, 0x40, 0xA0, 0x00, 0x00, 0x50]);
    assert_eq!(rt;
        row_bytes(row(1, 60, 70)),
        [0x20, 0, 0, 0x78, 0, 0, 0x08, 0xC0, 0, 0x0A, 0]
    );
    accepted(&rt, bytes.as_slice(), 10);
    Ok(())
}

#[test]
fn too_short_or_unmarked_is_no_table(rt: HostRuntime) {
    refused(&rt, &[], 1, None, 0);
    refused(&rt, &[87, 0, 0x10, 0, 0], 1, None, 0);
    refused(&rt, &[88, 0, 0x10, 0, 0, 1], 1, None, 0);
    refused(&rt, &[87, 0, 0x10, 0, 0, 1], 3, None, 48);
}

#[test]
fn at_most_384_tasks(rt: HostRuntime) -> Result<(), Fail> {
    refused(&rt, &header(1, 0, 1), 2, None, 11);
    refused(&rt, &header(1, 385, 1), 2, None, 11);
    refused(&rt, &header(1, 384, 1), 3, None, 48);
    let mut rows: Vec<Row> = (0..384).map(|t| row(0, t, t + 1)).collect(rt.alloc())?;
    let bytes = Draft::new(1, 384, rows.as_slice()).written(rt.alloc())?;
    accepted(&rt, bytes.as_slice(), 384);
    rows.push(row(0, 384, 385))?;
    let bytes = Draft::new(1, 385, rows.as_slice()).written(rt.alloc())?;
    refused(&rt, bytes.as_slice(), 2, None, 11);
    Ok(())
}

#[test]
fn each_row_is_on_a_core_of_the_table(rt: HostRuntime) -> Result<(), Fail> {
    let bytes = Draft::new(2, 9, &[row(0, 0, 9), row(1, 0, 9)]).written(rt.alloc())?;
    accepted(&rt, bytes.as_slice(), 2);
    let bytes = Draft::new(1, 9, &[row(0, 0, 9), row(1, 0, 9)]).written(rt.alloc())?;
    refused(&rt, bytes.as_slice(), 4, Some(1), 136);
    Ok(())
}

#[test]
fn each_span_lies_inside_the_frame(rt: HostRuntime) -> Result<(), Fail> {
    let bytes = Draft::new(1, 9, &[row(0, 8, 9)]).written(rt.alloc())?;
    accepted(&rt, bytes.as_slice(), 1);
    let bytes = Draft::new(1, 9, &[row(0, 9, 9)]).written(rt.alloc())?;
    refused(&rt, bytes.as_slice(), 5, Some(0), 51);
    let bytes = Draft::new(1, 8, &[row(0, 8, 9)]).written(rt.alloc())?;
    refused(&rt, bytes.as_slice(), 5, Some(0), 51);
    let last = 268_435_455;
    let bytes = Draft::new(1, 268_435_455, &[row(0, last - 1, last)]).written(rt.alloc())?;
    accepted(&rt, bytes.as_slice(), 1);
    Ok(())
}

#[test]
fn rows_of_one_core_stand_in_order(rt: HostRuntime) -> Result<(), Fail> {
    let bytes = Draft::new(2, 60, &[row(0, 0, 40), row(1, 0, 60), row(0, 40, 50)]).written(
        rt.alloc(),
    )?;
    accepted(&rt, bytes.as_slice(), 3);
    let bytes = Draft::new(2, 60, &[row(0, 0, 40), row(1, 0, 60), row(0, 39, 50)]).written(
        rt.alloc(),
    )?;
    refused(&rt, bytes.as_slice(), 6, Some(2), 227);
    Ok(())
}

#[test]
fn data_bits_name_a_core_that_has_written(rt: HostRuntime) -> Result<(), Fail> {
    // On core 1 a row ends at 40; core 2 has no row.
    let bytes = Draft::new(3, 60, &[reading(row(0, 40, 50), 2), row(1, 0, 40)]).written(
        rt.alloc(),
    )?;
    accepted(&rt, bytes.as_slice(), 2);
    let bytes = Draft::new(3, 60, &[reading(row(0, 39, 50), 2), row(1, 0, 40)]).written(
        rt.alloc(),
    )?;
    refused(&rt, bytes.as_slice(), 7, Some(0), 128);
    for bits in [1, 6, 130] {
        let bytes = Draft::new(3, 60, &[row(1, 0, 40), reading(row(0, 40, 50), bits)]).written(
            rt.alloc(),
        )?;
        refused(&rt, bytes.as_slice(), 7, Some(1), 216);
    }
    Ok(())
}

#[test]
fn an_earlier_question_is_asked_first(rt: HostRuntime) -> Result<(), Fail> {
    // Row 0 reads from its own core, row 1 is on no core: 4 is asked of every row before 7 of any.
    let bytes = Draft::new(1, 60, &[reading(row(0, 0, 40), 1), row(1, 0, 40)]).written(rt.alloc())?;
    refused(&rt, bytes.as_slice(), 4, Some(1), 136);
    // Row 0 starts at its end, row 1 is on no core: all of row 0 before row 1.
    let bytes = Draft::new(1, 60, &[row(0, 40, 40), row(1, 0, 40)]).written(rt.alloc())?;
    refused(&rt, bytes.as_slice(), 5, Some(0), 51);
    Ok(())
}

#[test]
fn a_refused_load_keeps_the_former_table(rt: HostRuntime) -> Result<(), Fail> {
    let mut table = Table::new();
    assert_eq!(rt; table.cores(), 0);
    assert_eq!(rt; table.tasks(), 0);
    let lawful = Draft::new(3, 80, &example()).written(rt.alloc())?;
    assert!(rt; table.load(lawful.as_slice()).is_ok());
    let unlawful = Draft::new(1, 60, &[row(0, 40, 40)]).written(rt.alloc())?;
    assert!(rt; table.load(unlawful.as_slice()).is_err());
    assert_eq!(rt; table.cores(), 3);
    assert_eq!(rt; table.tasks(), 10);
    assert_eq!(rt; table.ticks(), 80);
    assert_eq!(rt; table.row(6), row(1, 60, 70));
    let other = Draft::new(1, 60, &[row(0, 30, 40)]).written(rt.alloc())?;
    assert!(rt; table.load(other.as_slice()).is_ok());
    assert_eq!(rt; table.tasks(), 1);
    assert_eq!(rt; table.row(0), row(0, 30, 40));
    Ok(())
}

#[test]
fn waits_of_the_example(rt: HostRuntime) -> Result<(), Fail> {
    let table = example_table(&rt, rt.alloc())?;
    assert_eq!(rt; table.wait(6, 0), 3);
    assert_eq!(rt; table.wait(6, 2), 2);
    assert_eq!(rt; table.wait(0, 1), 0);
    assert_eq!(rt; table.wait(7, 0), 4);
    assert_eq!(rt; table.wait(6, 7), 0);
    assert_eq!(rt; table.tasks_on(2), 2);
    assert_eq!(rt; table.first_on(1, 5), Some(5));
    assert_eq!(rt; table.first_on(1, 8), None);
    assert_eq!(rt; table.row(10), Row::BLANK);
    Ok(())
}
