ghost use Rattle.std.specs.Prelude.{◌≡◌, true, take};
ghost use Rattle.table.specs.View.{plan_of};
ghost use Rattle.board.specs.Keeps.{cores_of, keeps, nexts_of};

use crate::cores::{Core, CoreRow, Cores, Step};
use table::lawful::Table;

// How far each core of a table has come, with the next task of each at hand.
#[derive(Clone, Copy)]
pub struct Progress {
    pub(crate) table: Table,
    pub(crate) cores: Cores,
    ghost ok: { keeps (plan_of table) (take (plan_of table).cores (cores_of cores.rows)) (nexts_of cores.rows) ≡ true },
}

impl Progress {
    ghost use Rattle.std.specs.Prelude.{◌≡◌, suc, true, false, cond, [], slice_index_or};
    ghost use Rattle.table.specs.Rows.{named, nothing, nth_on};
    ghost use Rattle.table.specs.View.{plan_of};
    ghost use Rattle.board.specs.Steps.{is_over, is_pending, is_running, is_waiting};
    ghost use Rattle.board.specs.Meaning.{ended_on, finished, idle, next_task, opened, step_of, stepped};
    ghost use Rattle.board.specs.Standing.{launched, loosened, plan_at, progress_at};

    // The beginning of the table's frame.
    fn at_start(table: &Table) -> Progress
        ensures plan { plan_at result ≡ plan_of table.now }
        ensures progress { progress_at result ≡ opened (plan_of table.now) }
    {
        Progress {
            table: *table,
            cores: Cores::at_start(table),
        }
    }

    // The progress on an empty table.
    pub fn new() -> Progress
        ensures plan { plan_at result ≡ nothing }
        ensures progress { progress_at result ≡ [] }
    {
        Progress::at_start(&Table::new())
    }

    // Forgets all, and stands at the beginning of this table's frame.
    pub fn open(&mut self, table: &Table)
        ensures plan { plan_at self.new ≡ plan_of table.now }
        ensures progress { progress_at self.new ≡ opened (plan_of table.now) }
    {
        *self = Progress::at_start(table);
    }

    // The table that it was opened on.
    pub fn table(&self) -> &Table
        ensures { plan_of result.now ≡ plan_at self.now }
    {
        &self.table
    }

    // The core's row; a core that the table lacks is over and has ended nothing.
    fn row(&self, core: u32) -> CoreRow
        ensures core { result.core ≡ slice_index_or (progress_at self.now) core idle }
        ensures next { result.next ≡ next_task (plan_at self.now) (progress_at self.now) core }
    {
        if core < u32::from(self.table.cores()) {
            self.cores.rows[core as usize]
        } else {
            CoreRow::IDLE
        }
    }

    // How far the core has come; a core that the table lacks is over and has ended nothing.
    pub fn core(&self, core: u32) -> Core
        ensures { result ≡ slice_index_or (progress_at self.now) core idle }
    {
        self.row(core).core
    }

    // The core's next task, if one is left.
    pub fn next(&self, core: u32) -> Option<u16>
        ensures { result ≡ next_task (plan_at self.now) (progress_at self.now) core }
    {
        self.row(core).next
    }

    // The core's task after its next one, if there is one.
    fn after_next(&self, core: u32) -> Option<u16>
        ensures { result ≡ named (nth_on core (suc (ended_on (progress_at self.now) core)) 0 (plan_at self.now).rows) }
    {
        let task = self.next(core)?;
        self.table.first_on(core, task + 1)
    }

    // Like a board's orders, those of a progress value say each for itself what they keep.

    // Moves the core's next task to another step if it stands at one from which it may, and says whether it did.
    fn advance<F: FnOnce(Step) -> bool>(&mut self, core: u32, may: F, to: Step) -> bool
        requires callable { F.pre may (step_of (progress_at self.old) core) }
        requires left { F.post may (step_of (progress_at self.old) core) true → is_over (step_of (progress_at self.old) core) ≡ false }
        requires more { is_over to ≡ false }
        ensures answer { F.post may (step_of (progress_at self.old) core) result }
        ensures plan { plan_at self.new ≡ plan_at self.old }
        ensures kept { result ≡ false → self.new ≡ self.old }
        ensures progress { progress_at self.new ≡ cond result (stepped (progress_at self.old) core to) (progress_at self.old) }
    {
        if !may(self.core(core).step) {
            return false;
        }
        let row = &mut self.cores.rows[core as usize];
        row.move_to(to);
        true
    }

    // Lets the core's next task loose, if it waits.
    pub fn loosen(&mut self, core: u32) -> bool
        ensures answer { result ≡ is_waiting (step_of (progress_at self.old) core) }
        ensures plan { plan_at self.new ≡ plan_at self.old }
        ensures kept { result ≡ false → self.new ≡ self.old }
        ensures progress { progress_at self.new ≡ loosened (progress_at self.old) core }
    {
        self.advance(core, Step::is_waiting, Step::Loose)
    }

    // Starts the core's next task, if it waits or is loose.
    pub fn run(&mut self, core: u32) -> bool
        ensures answer { result ≡ is_pending (step_of (progress_at self.old) core) }
        ensures plan { plan_at self.new ≡ plan_at self.old }
        ensures kept { result ≡ false → self.new ≡ self.old }
        ensures progress { progress_at self.new ≡ launched (progress_at self.old) core }
    {
        self.advance(core, Step::is_pending, Step::Running)
    }

    // Ends the core's running task, if it runs one.
    pub fn end(&mut self, core: u32) -> bool
        ensures answer { result ≡ is_running (step_of (progress_at self.old) core) }
        ensures plan { plan_at self.new ≡ plan_at self.old }
        ensures kept { result ≡ false → self.new ≡ self.old }
        ensures progress { progress_at self.new ≡ finished (plan_at self.old) (progress_at self.old) core }
    {
        if !self.core(core).step.is_running() {
            return false;
        }
        let after = self.after_next(core);
        let row = &mut self.cores.rows[core as usize];
        row.end_one(after);
        true
    }
}
