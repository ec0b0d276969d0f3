ghost use Rattle.std.specs.Prelude.{◌≡◌, ◌<◌, ◌≤◌, length, take, drop, count_by};
ghost use Rattle.table.specs.Rows.{named, ends_by, nth_on, row, tasks_on, wait};
ghost use Rattle.table.specs.Lawful.{EmptyOrLawful};
ghost use Rattle.table.specs.View.{plan_of};

use crate::lawful::Table;
use crate::rows::Row;

// How many of the rows lie on the core and end by the time.
// A loop over a slice is a form that the project asks for here; `tasks_before` counts by a chain.
fn count_ended_by(rows: &[Row], core: u32, time: u32) -> u16
    requires { length rows.now ≤ 384 }
    ensures is { result ≡ count_by (ends_by core time) rows.now }
{
    let mut count = 0;
    for row in rows {
        if row.ends_by(core, time) {
            count += 1;
        }
    }
    count
}

// Each `few` follows from `is` and the table's fact, and is said so that callers can bound an index, a sum or a cast.
impl Table {
    // The number of cores, 0 of an empty table.
    pub fn cores(&self) -> u8
        ensures is { result ≡ (plan_of self.now).cores }
        ensures few { result ≤ 8 }
        ensures lawful { EmptyOrLawful (plan_of self.now) }
    {
        self.header.cores
    }

    // The number of tasks, 0 of an empty table.
    pub fn tasks(&self) -> u16
        ensures is { result ≡ length (plan_of self.now).rows }
        ensures few { result ≤ 384 }
    {
        self.header.tasks
    }

    // The length of the frame in ticks.
    pub fn ticks(&self) -> u32
        ensures is { result ≡ (plan_of self.now).ticks }
        ensures small { result < 268435456 }
    {
        self.header.ticks
    }

    // The rows of the tasks.
    fn rows(&self) -> &[Row]
        ensures is { result.now ≡ (plan_of self.now).rows }
        ensures few { length result.now ≤ 384 }
    {
        &self.rows[..usize::from(self.header.tasks)]
    }

    // The row of the task; a blank one if there is no such task.
    // `soon` and `small` are no facts of `Row`: its fields are public; tests and definitions build rows of any numbers.
    pub fn row(&self, task: u16) -> Row
        ensures is { result ≡ row (plan_of self.now) task }
        ensures soon { result.start < 268435456 }
        ensures small { result.claim < 2097152 }
    {
        self.rows()
            .get(usize::from(task))
            .copied()
            .unwrap_or(Row::BLANK)
    }

    // How many tasks before task `end` lie on the core.
    // By the tasks' numbers: a sum along the rows' own iterator takes three times as many instructions.
    fn tasks_before(&self, end: u16, core: u32) -> u16
        ensures is { result ≡ tasks_on (take end (plan_of self.now).rows) core }
        ensures few { result ≤ 384 }
    {
        let rows = self.rows();
        (0..end.min(self.header.tasks))
            .map(|task| u16::from(rows[usize::from(task)].lies_on(core)))
            .sum()
    }

    // How many tasks the core has.
    pub fn tasks_on(&self, core: u32) -> u16
        ensures is { result ≡ tasks_on (plan_of self.now).rows core }
        ensures few { result ≤ 384 }
    {
        self.tasks_before(self.header.tasks, core)
    }

    // The place of the task on its core: how many tasks stand before it there.
    pub fn place(&self, task: u16) -> u16
        ensures is { result ≡ tasks_on (take task (plan_of self.now).rows) (row (plan_of self.now) task).core }
        ensures few { result ≤ 384 }
    {
        let core = u32::from(self.row(task).core);
        self.tasks_before(task, core)
    }

    // The task at a place of the core among the tasks from `from` on, if there is one; places count from 0.
    fn nth_from(&self, core: u32, nth: u16, from: u16) -> Option<u16>
        ensures { result ≡ named (nth_on core nth from (drop from (plan_of self.now).rows)) }
    {
        let rows = self.rows();
        (from..self.header.tasks)
            .filter(|task| rows[usize::from(*task)].lies_on(core))
            .nth(usize::from(nth))
    }

    // The task at a place of the core, if there is one; places count from 0.
    pub fn nth_on(&self, core: u32, nth: u16) -> Option<u16>
        ensures { result ≡ named (nth_on core nth 0 (plan_of self.now).rows) }
    {
        self.nth_from(core, nth, 0)
    }

    // The first task of the core from task `from` on, if there is one.
    pub fn first_on(&self, core: u32, from: u16) -> Option<u16>
        ensures { result ≡ named (nth_on core 0 from (drop from (plan_of self.now).rows)) }
    {
        self.nth_from(core, 0, from)
    }

    // The wait of the task on the core: how many tasks of that core end at or before the task's start.
    pub fn wait(&self, task: u16, core: u32) -> u16
        ensures is { result ≡ wait (plan_of self.now).rows (row (plan_of self.now) task) core }
        ensures few { result ≤ 384 }
    {
        count_ended_by(self.rows(), core, self.row(task).start)
    }
}
