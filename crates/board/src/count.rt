ghost use Rattle.std.specs.Prelude.{◌≡◌, []};
ghost use Rattle.table.specs.Rows.{nothing};
ghost use Rattle.table.specs.Below.{all_below, any_below};
ghost use Rattle.board.specs.Meaning.{clear, droppable, easable, free_of, met};
ghost use Rattle.board.specs.Standing.{plan_at, progress_at};
ghost use Rattle.board.specs.Keeping.{progress_lawful, progress_left};

use crate::Board;
use crate::cores::{Core, Step};
use crate::progress::Progress;
use table::lawful::Table;

// A board that compares each wait with the number of ended tasks.
#[derive(Clone, Copy)]
pub struct CountBoard {
    progress: Progress,
}

impl CountBoard {
    // A board that was opened on no table yet.
    pub fn new() -> CountBoard
        ensures plan { plan_at result.progress ≡ nothing }
        ensures progress { progress_at result.progress ≡ [] }
    {
        CountBoard {
            progress: Progress::new(),
        }
    }

    // The number of the table's cores.
    fn cores(&self) -> u32
        ensures { result ≡ (plan_at self.now.progress).cores }
    {
        u32::from(self.progress.table().cores())
    }

    // Has the core ended as many tasks as the task waits for on it?
    fn met(&self, task: u16, core: u32) -> bool
        ensures { result ≡ met (plan_at self.now.progress) (progress_at self.now.progress) task core }
    {
        self.progress.table().wait(task, core) <= self.progress.core(core).ended
    }

    // May the task, at this step, start as far as this core goes?
    fn free_of(&self, step: Step, task: u16, core: u32) -> bool
        ensures { result ≡ free_of (plan_at self.now.progress) (progress_at self.now.progress) step task core }
    {
        let row = self.progress.table().row(task);
        let in_force = !row.lies_on(core) && (step.is_waiting() || row.inputs.contains(core));
        !in_force || self.met(task, core)
    }

    // May the task, at this step, start as far as any core goes?
    fn all_free(&self, step: Step, task: u16) -> bool
        ensures { result ≡ all_below (plan_at self.now.progress).cores (free_of (plan_at self.now.progress) (progress_at self.now.progress) step task) }
    {
        (0..self.cores()).all(|other| self.free_of(step, task, other))
    }

    // Has the core's task an unmet wait on the other core that easing would drop?
    fn droppable(&self, core: u32, task: u16, other: u32) -> bool
        ensures { result ≡ droppable (plan_at self.now.progress) (progress_at self.now.progress) core task other }
    {
        other != core
            && !self.progress.table().row(task).inputs.contains(other)
            && !self.met(task, other)
    }

    // Has the core's task an unmet wait on any core that easing would drop?
    fn any_droppable(&self, core: u32, task: u16) -> bool
        ensures { result ≡ any_below (plan_at self.now.progress).cores (droppable (plan_at self.now.progress) (progress_at self.now.progress) core task) }
    {
        (0..self.cores()).any(|other| self.droppable(core, task, other))
    }
}

impl Board for CountBoard {
    ghost plan = { λ b. plan_at b.progress };

    ghost progress = { λ b. progress_at b.progress };

    ghost lawful = { λ x. progress_lawful x.progress };

    ghost left = { λ x k h. progress_left x.progress k h };

    fn open(&mut self, table: &Table) {
        self.progress.open(table);
    }

    // The trait has no body for these three: a board need not stand on a progress value.
    fn table(&self) -> &Table {
        self.progress.table()
    }

    fn core(&self, core: u32) -> Core {
        self.progress.core(core)
    }

    fn next(&self, core: u32) -> Option<u16> {
        self.progress.next(core)
    }

    // `clear` and `easable` differ in the step and in the test: a helper over two closures would be no plainer.
    fn clear(&self, core: u32) -> bool {
        let step = self.progress.core(core).step;
        let next = self.progress.next(core);
        next.is_some_and(|task| step.is_pending() && self.all_free(step, task))
    }

    fn easable(&self, core: u32) -> bool {
        let step = self.progress.core(core).step;
        let next = self.progress.next(core);
        next.is_some_and(|task| step.is_waiting() && self.any_droppable(core, task))
    }

    fn ease(&mut self, core: u32) -> bool {
        self.easable(core) && self.progress.loosen(core)
    }

    fn start(&mut self, core: u32) -> bool {
        self.clear(core) && self.progress.run(core)
    }

    fn end(&mut self, core: u32) -> bool {
        self.progress.end(core)
    }
}
