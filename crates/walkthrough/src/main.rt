// Loads the table in `table.isw`, starts its first task and brings it to its end, and says what was done.
#![tactic(auto)]

use anyhow::{Context, anyhow};
use board::Board;
use std::fs;
use std::process::ExitCode;
use table::lawful::Table;
use table::rows::Row;
use vectors::vector_board::VectorBoard;

mod tour;

use tour::first_clear;

const FILE: &str = "table.isw";

// The table in the file, or one line that says why there is none.
fn read_table(rt: &HostRuntime) -> anyhow::Result<Table> {
    let bytes = fs::read(rt, FILE).context(format_args!("no table: {FILE} cannot be read"))?;
    let mut table = Table::new();
    table
        .load(bytes.as_slice())
        .map_err(|fault| anyhow!("no table: {fault}"))?;
    Ok(table)
}

// Says what the table holds.
fn describe(rt: &HostRuntime, table: &Table) -> anyhow::Result<()> {
    let cores = table.cores();
    let tasks = table.tasks();
    let ticks = table.ticks();
    println!(rt;
        "{FILE} holds a lawful table: {cores} cores, {tasks} tasks, a frame of {ticks} ticks."
    )?;
    // A loop over numbers: each step prints, and may fail.
    for core in 0..u32::from(cores) {
        let count = table.tasks_on(core);
        println!(rt; "Core {core} has {count} tasks.")?;
    }
    Ok(())
}

// Starts the first task that may start, and ends it.
fn run_one<B: Board>(rt: &HostRuntime, board: &mut B) -> anyhow::Result<()> {
    let Some(core) = first_clear(board) else {
        println!(rt; "No core is clear.")?;
        return Ok(());
    };
    if let Some(task) = board.next(core) {
        let Row { start, end, .. } = board.table().row(task);
        println!(rt;
            "Core {core} is clear: its next task is task {task}, which the table runs from {start} to {end}."
        )?;
    }
    if board.start(core) {
        println!(rt; "Core {core} has started it.")?;
    }
    if board.end(core) {
        let ended = board.core(core).ended;
        println!(rt; "Core {core} has ended it; tasks that this core has ended: {ended}.")?;
    }
    match board.next(core) {
        Some(task) => println!(rt; "Its next task is task {task}.")?,
        None => println!(rt; "It is over.")?,
    }
    Ok(())
}

fn walk(rt: &HostRuntime) -> anyhow::Result<()> {
    let table = read_table(rt)?;
    describe(rt, &table)?;
    let mut board = VectorBoard::new();
    board.open(&table);
    println!(rt; "The board is open: no task has ended.")?;
    run_one(rt, &mut board)
}

// An error is printed here, since one that `main` returns would be printed after the word `Error`.
fn main(rt: HostRuntime) -> ExitCode {
    let Err(error) = walk(&rt) else {
        return ExitCode::SUCCESS;
    };
    let _ = eprintln!(rt; "{error}");
    ExitCode::FAILURE
}
