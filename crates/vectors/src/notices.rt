ghost use Rattle.std.specs.Prelude.{◌≡◌, true, false};
ghost use Rattle.board.specs.Meaning.{clear, easable, eased, finished, opened, started, step_of};
ghost use Rattle.board.specs.Standing.{progress_at};
ghost use Rattle.board.specs.Steps.{is_running};
ghost use Rattle.vectors.specs.Phases.{board_eased, board_finished, board_started, notify_of, ready_of, status_of, target_of, vectors_clear, vectors_easable};
ghost use Rattle.table.specs.Rows.{nothing, row};
ghost use Rattle.table.specs.View.{plan_of};
ghost use Rattle.vectors.specs.Linked.{dropped};
ghost use Rattle.vectors.specs.Reached.{first_standing};
ghost use Rattle.vectors.specs.View.{plan_on, standing_of, task_if};
ghost use Rattle.board.specs.Keeping.{progress_lawful, progress_left};

use crate::opening::Opening;
use crate::vector_board::VectorBoard;
use board::Board;
use board::cores::Core;
use board::progress::Progress;
use table::lawful::Table;
use table::rows::CoreSet;

impl VectorBoard {
    // A board that stands at the beginning of this table's frame.
    fn opened(table: &Table) -> VectorBoard
        ensures plan { plan_on result ≡ plan_of table.now }
        ensures standing { standing_of result ≡ first_standing (plan_of table.now) }
    {
        let mut progress = Progress::new();
        progress.open(table);
        let opening = Opening::new(table);
        VectorBoard {
            progress,
            vectors: opening.vectors(),
            links: opening.links,
        }
    }

    // A board that was opened on no table yet.
    pub fn new() -> VectorBoard
        ensures plan { plan_on result ≡ nothing }
        ensures standing { standing_of result ≡ first_standing nothing }
    {
        VectorBoard::opened(&Table::new())
    }

    // The cores whose notices the task still needs.
    pub fn ready(&self, task: u16) -> CoreSet
        ensures { result ≡ ready_of self.now.vectors task }
    {
        self.vectors.ready_of(task)
    }

    // The cores that are told when the task ends.
    pub fn notification(&self, task: u16) -> CoreSet
        ensures { result ≡ notify_of self.now.vectors task }
    {
        self.vectors.notify_of(task)
    }

    // The task of the core that waits for the end of the task.
    pub fn target(&self, task: u16, core: u32) -> Option<u16>
        ensures { result ≡ target_of self.now.vectors task core }
    {
        self.vectors.target_of(task, core)
    }

    // The cores from which the core has a notice that it has not used.
    pub fn status(&self, core: u32) -> CoreSet
        ensures { result ≡ status_of self.now.vectors core }
    {
        self.vectors.status_of(core)
    }

    // The core's next task, if the core is clear: exactly when its vectors say so. The three that ask for a task differ
    // in the step and in the test, as a count board's two do.
    fn clear_task(&self, core: u32) -> Option<u16>
        ensures { result ≡ task_if (vectors_clear (plan_on self.now) (standing_of self.now) core) (plan_on self.now) (standing_of self.now) core }
    {
        let step = self.progress.core(core).step;
        let next = self.progress.next(core);
        next.filter(|task| step.is_pending() && self.vectors.noticed(core, *task))
    }

    // The core's next task, if the core can be eased: exactly when its vectors say so.
    fn easable_task(&self, core: u32) -> Option<u16>
        ensures { result ≡ task_if (vectors_easable (plan_on self.now) (standing_of self.now) core) (plan_on self.now) (standing_of self.now) core }
    {
        let step = self.progress.core(core).step;
        let next = self.progress.next(core);
        next.filter(|task| step.is_waiting() && !self.dropped(core, *task).is_empty())
    }

    // The task that the core runs, if it runs one.
    fn running_task(&self, core: u32) -> Option<u16>
        ensures { result ≡ task_if (is_running (step_of (progress_at self.now.progress) core)) (plan_on self.now) (standing_of self.now) core }
    {
        let next = self.progress.next(core);
        next.filter(|_| self.progress.core(core).step.is_running())
    }

    // The waits of the core's task that easing drops.
    fn dropped(&self, core: u32, task: u16) -> CoreSet
        ensures { result ≡ dropped self.now.vectors core task (row (plan_on self.now) task).inputs }
    {
        self.vectors.dropped(core, task, self.inputs(task))
    }

    // The task's data bits.
    fn inputs(&self, task: u16) -> CoreSet
        ensures { result ≡ (row (plan_on self.now) task).inputs }
    {
        self.progress.table().row(task).inputs
    }
}

impl Board for VectorBoard {
    ghost plan = { plan_on };

    ghost progress = { λ b. progress_at b.progress };

    ghost lawful = { λ x. progress_lawful x.progress };

    ghost left = { λ x k h. progress_left x.progress k h };

    fn open(&mut self, table: &Table)
        ensures plan { plan_on self.new ≡ plan_of table.now }
        ensures progress { progress_at self.new.progress ≡ opened (plan_of table.now) }
        ensures standing { standing_of self.new ≡ first_standing (plan_of table.now) }
    {
        *self = VectorBoard::opened(table);
    }

    // The trait has no body for these three, as the count board says.
    fn table(&self) -> &Table {
        self.progress.table()
    }

    fn core(&self, core: u32) -> Core {
        self.progress.core(core)
    }

    fn next(&self, core: u32) -> Option<u16> {
        self.progress.next(core)
    }

    fn clear(&self, core: u32) -> bool {
        self.clear_task(core).is_some()
    }

    fn easable(&self, core: u32) -> bool {
        self.easable_task(core).is_some()
    }

    // An impl's own clauses replace those of the trait, so the orders repeat these beside `standing`.
    fn ease(&mut self, core: u32) -> bool
        ensures answer { result ≡ easable (plan_on self.old) (progress_at self.old.progress) core }
        ensures plan { plan_on self.new ≡ plan_on self.old }
        ensures kept { result ≡ false → self.new ≡ self.old }
        ensures progress { progress_at self.new.progress ≡ eased (plan_on self.old) (progress_at self.old.progress) core }
        ensures standing { standing_of self.new ≡ board_eased (plan_on self.old) (standing_of self.old) core }
    {
        let Some(task) = self.easable_task(core) else {
            return false;
        };
        let inputs = self.inputs(task);
        self.vectors.ease(&self.links, core, task, inputs);
        self.progress.loosen(core)
    }

    fn start(&mut self, core: u32) -> bool
        ensures answer { result ≡ clear (plan_on self.old) (progress_at self.old.progress) core }
        ensures plan { plan_on self.new ≡ plan_on self.old }
        ensures kept { result ≡ false → self.new ≡ self.old }
        ensures progress { progress_at self.new.progress ≡ started (plan_on self.old) (progress_at self.old.progress) core }
        ensures standing { standing_of self.new ≡ board_started (plan_on self.old) (standing_of self.old) core }
    {
        let Some(task) = self.clear_task(core) else {
            return false;
        };
        self.vectors.start(core, task);
        self.progress.run(core)
    }

    fn end(&mut self, core: u32) -> bool
        ensures answer { result ≡ is_running (step_of (progress_at self.old.progress) core) }
        ensures plan { plan_on self.new ≡ plan_on self.old }
        ensures kept { result ≡ false → self.new ≡ self.old }
        ensures progress { progress_at self.new.progress ≡ finished (plan_on self.old) (progress_at self.old.progress) core }
        ensures standing { standing_of self.new ≡ board_finished (plan_on self.old) (standing_of self.old) core }
    {
        let Some(task) = self.running_task(core) else {
            return false;
        };
        self.vectors.end(core, task);
        self.progress.end(core)
    }
}
