// The frame: it steers one frame of a table's tasks over any board and any rule.
#![tactic(auto)]

ghost use Rattle.std.specs.Prelude.{◌≡◌, ◌<◌, ◌≤◌, length, if◌then◌else◌, Some, None, Ok, Err, nat_lt};
ghost use Rattle.table.specs.View.{plan_of};
ghost use Rattle.board.specs.Steps.{is_over};
ghost use Rattle.board.specs.Meaning.{step_of};
ghost use Rattle.calls.specs.declared.Refusal.TheVariants.{NoSuchCore, BadTime};
ghost use Rattle.runs.specs.Calls.{opening, next_of, next_row, timely};
ghost use Rattle.frame.specs.View.{state_of, Within};

use board::Board;
use calls::Refusal;
use rule::Rule;
use runs::Record;
use table::lawful::Table;
use table::rows::Row;

pub mod asking;
mod candidate;
pub mod finishing;
pub mod playing;
pub mod reporting;
pub mod summing;

// The last time that a call may carry.
const LAST_TICK: u32 = 268_435_455;

// A frame under way. The table and how far each core has come are the board's; what is noted here are the latest
// time of an accepted call and a record for each task.
#[derive(Drop)]
pub struct Frame<B: Board, R: Rule> {
    board: B,
    rule: R,
    latest: u32,
    // Of these, the first count, as many as the table has tasks. An `ArrayVec` of just those would take as much memory,
    // and an invariant that ties its length to the board's table.
    records: [Record; 384],
}

impl<B: Board, R: Rule> Frame<B, R> {
    // Opens the board on the table, and with it a frame in which no task has started.
    #[tactic(auto, using(crate::proofs::Parts::fresh_front, table::proofs::Tables::few_rows))]
    pub fn open(table: &Table, mut board: B, rule: R) -> Frame<B, R>
        ensures frame { state_of B.Board result ≡ opening (plan_of table.now) }
        ensures rule { result.rule ≡ rule }
    {
        board.open(table);
        Frame {
            board,
            rule,
            latest: 0,
            records: [Record::FRESH; 384],
        }
    }

    // The latest time of an accepted call, 0 before the first.
    pub fn latest(&self) -> u32
        ensures { result ≡ (state_of B.Board self.now).latest }
    {
        self.latest
    }

    // The number of cores of the table.
    fn cores(&self) -> u32
        ensures is { result ≡ (state_of B.Board self.now).plan.cores }
        ensures few { result ≤ 8 }
    {
        u32::from(self.board.table().cores())
    }

    // The core's next task; none when it is over.
    #[tactic(auto, using(crate::proofs::Parts::left_named, crate::proofs::Parts::within_rows))]
    fn next_task(&self, core: u32) -> Option<u16>
        ensures is { let s = state_of B.Board self.now in result ≡ (if is_over (step_of s.progress core) then None else Some (next_of s core)) }
        ensures within { Within (length (state_of B.Board self.now).plan.rows) result }
    {
        if self.board.core(core).step.is_over() {
            None
        } else {
            self.board.next(core)
        }
    }

    // The row of the core's next task; a blank one if none is left.
    // `soon` and `small` are what a table says of any row: by `soon` the slack's difference is an `i32`.
    fn next_row(&self, core: u32) -> Row
        ensures is { result ≡ next_row (state_of B.Board self.now) core }
        ensures soon { result.start < 268435456 }
        ensures small { result.claim < 2097152 }
    {
        self.board
            .next(core)
            .map_or(Row::BLANK, |task| self.board.table().row(task))
    }

    // The records of the table's tasks.
    fn table_records(&self) -> &[Record]
        ensures { result.now ≡ (state_of B.Board self.now).records }
    {
        &self.records[..usize::from(self.board.table().tasks())]
    }

    // Refuses a core that the table lacks.
    fn check_core(&self, core: u32) -> Result<(), Refusal>
        ensures { result ≡ (if nat_lt core (state_of B.Board self.now).plan.cores then Ok tt else Err NoSuchCore) }
    {
        if core < self.cores() {
            Ok(())
        } else {
            Err(Refusal::NoSuchCore)
        }
    }

    // Refuses a time that a call may not carry.
    fn check_time(&self, time: u32) -> Result<(), Refusal>
        ensures { result ≡ (if timely (state_of B.Board self.now) time then Ok tt else Err BadTime) }
    {
        if self.latest <= time && time <= LAST_TICK {
            Ok(())
        } else {
            Err(Refusal::BadTime)
        }
    }
}
