ghost use Rattle.std.specs.Prelude.{◌≡◌, suc, ◌<◌, map};
ghost use Rattle.std.specs.List.{range_with_len};
ghost use Rattle.table.specs.View.{plan_of};
ghost use Rattle.board.specs.Steps.{is_loose, is_over, is_pending, is_running, is_waiting};
ghost use Rattle.board.specs.Standing.{row_at_start, untouched};

use std::array;
use table::lawful::Table;

// The step of a core's next task.
#[derive(Clone, Copy, PartialEq, Eq, Debug)]
pub enum Step {
    // All its waits are in force.
    Waiting,
    // Let loose: only its waits on data cores are in force.
    Loose,
    Running,
    // No task is left.
    Over,
}

impl Step {
    // The step of a core whose next task has not been touched, by the two cases of that task.
    fn untouched(next: Option<u16>) -> Step
        ensures { result ≡ untouched next }
    {
        match next {
            Some(_) => Step::Waiting,
            None => Step::Over,
        }
    }

    // Each test of a step has a name, as `Option::is_some` has, so that it can be handed on.

    pub fn is_waiting(self) -> bool
        ensures { result ≡ is_waiting self }
    {
        matches!(self, Step::Waiting)
    }

    pub fn is_loose(self) -> bool
        ensures { result ≡ is_loose self }
    {
        matches!(self, Step::Loose)
    }

    pub fn is_over(self) -> bool
        ensures { result ≡ is_over self }
    {
        matches!(self, Step::Over)
    }

    // The next task has not started.
    pub fn is_pending(self) -> bool
        ensures { result ≡ is_pending self }
    {
        matches!(self, Step::Waiting | Step::Loose)
    }

    pub fn is_running(self) -> bool
        ensures { result ≡ is_running self }
    {
        matches!(self, Step::Running)
    }
}

// How far a core has come: the number of its ended tasks, and the step of its next one.
#[derive(Clone, Copy, PartialEq, Eq, Debug)]
pub struct Core {
    pub ended: u16,
    pub step: Step,
}

impl Core {
    // A core that has ended nothing and has no task left.
    pub const IDLE: Core = Core {
        ended: 0,
        step: Step::Over,
    };
}

// A core's row: how far the core has come, and its next task.
#[derive(Clone, Copy)]
pub(crate) struct CoreRow {
    pub(crate) core: Core,
    pub(crate) next: Option<u16>,
}

impl CoreRow {
    // The row of a core that has ended nothing and has no task left.
    pub(crate) const IDLE: CoreRow = CoreRow {
        core: Core::IDLE,
        next: None,
    };

    // The core's row at the beginning of the table's frame.
    fn at_start(table: &Table, core: u32) -> CoreRow
        ensures { result ≡ row_at_start (plan_of table.now) core }
    {
        let next = table.first_on(core, 0);
        let step = Step::untouched(next);
        CoreRow {
            core: Core { ended: 0, step },
            next,
        }
    }

    // Moves the next task to another step.
    pub(crate) fn move_to(&mut self, step: Step)
        ensures { self.new ≡ record self.old { core = record self.old.core { step = step } } }
    {
        self.core.step = step;
    }

    // Counts the next task as ended; the one after it has not been touched.
    pub(crate) fn end_one(&mut self, after: Option<u16>)
        requires { self.old.core.ended < 384 }
        ensures { self.new ≡ record { core = record { ended = suc self.old.core.ended; step = untouched after }; next = after } }
    {
        self.core.ended += 1;
        self.core.step = Step::untouched(after);
        self.next = after;
    }
}

// A row for each core that a table can have: an array, of fixed memory, so that a board can be copied.
#[derive(Clone, Copy)]
pub struct Cores {
    pub(crate) rows: [CoreRow; 8],
}

impl Cores {
    // The rows at the beginning of the table's frame.
    pub(crate) fn at_start(table: &Table) -> Cores
        ensures { result.rows ≡ map (row_at_start (plan_of table.now)) (range_with_len 0 8) }
    {
        Cores {
            rows: array::from_fn(|k| CoreRow::at_start(table, k as u32)),
        }
    }
}
