// The boards: how far the cores of a table have come, and which next tasks are clear. One board is here, over counts.
#![tactic(auto)]

ghost use Rattle.std.specs.Prelude.{◌≡◌, ℕ, ◌<◌, false, List, slice_index_or};
ghost use Rattle.table.specs.Lawful.{EmptyOrLawful};
ghost use Rattle.table.specs.Rows.{Plan, tasks_on};
ghost use Rattle.table.specs.View.{plan_of};
ghost use Rattle.board.specs.Steps.{is_over, is_running};
ghost use Rattle.board.specs.Meaning.{idle, ended_on, step_of, next_task, clear, easable, opened, eased, started, finished};
ghost use Rattle.board.specs.declared.cores.Core.{Core};

use cores::Core;
use table::lawful::Table;

pub mod cores;
pub mod count;
pub mod progress;

// A board remembers the notices between the cores of a table. Its meaning is the plan of that table and,
// for each core, the number of ended tasks and the step of the next one. Any core may be named in a call.
pub trait Board {
    ghost plan: { Self → Plan };

    ghost progress: { Self → List Core };

    // Forgets all, and stands at the beginning of this table's frame.
    fn open(&mut self, table: &Table)
        ensures plan { plan self.new ≡ plan_of table.now }
        ensures progress { progress self.new ≡ opened (plan_of table.now) };

    // The table that the board was opened on.
    fn table(&self) -> &Table
        ensures { plan_of result.now ≡ plan self.now };

    // How far the core has come; a core that the table lacks is over and has ended nothing.
    fn core(&self, core: u32) -> Core
        ensures { result ≡ slice_index_or (progress self.now) core idle };

    // The core's next task, if one is left.
    fn next(&self, core: u32) -> Option<u16>
        ensures { result ≡ next_task (plan self.now) (progress self.now) core };

    // Is the next task's every wait in force met?
    fn clear(&self, core: u32) -> bool
        ensures { result ≡ clear (plan self.now) (progress self.now) core };

    // Does the next task wait, and not only for data?
    fn easable(&self, core: u32) -> bool
        ensures { result ≡ easable (plan self.now) (progress self.now) core };

    // Each of the three orders says what it keeps: a clause cannot be said once for several methods.

    // Lets the next task loose, if the core can be eased.
    fn ease(&mut self, core: u32) -> bool
        ensures answer { result ≡ easable (plan self.old) (progress self.old) core }
        ensures plan { plan self.new ≡ plan self.old }
        ensures kept { result ≡ false → self.new ≡ self.old }
        ensures progress { progress self.new ≡ eased (plan self.old) (progress self.old) core };

    // Starts the next task, if the core is clear.
    fn start(&mut self, core: u32) -> bool
        ensures answer { result ≡ clear (plan self.old) (progress self.old) core }
        ensures plan { plan self.new ≡ plan self.old }
        ensures kept { result ≡ false → self.new ≡ self.old }
        ensures progress { progress self.new ≡ started (plan self.old) (progress self.old) core };

    // Ends the running task, if the core runs one.
    fn end(&mut self, core: u32) -> bool
        ensures answer { result ≡ is_running (step_of (progress self.old) core) }
        ensures plan { plan self.new ≡ plan self.old }
        ensures kept { result ≡ false → self.new ≡ self.old }
        ensures progress { progress self.new ≡ finished (plan self.old) (progress self.old) core };

    // The plan is that of an empty table or of a lawful one.
    ghost lawful: { (x : Self) → EmptyOrLawful (plan x) };

    // A core that is not over has a task left.
    ghost left: { (x : Self) (k : ℕ) → is_over (step_of (progress x) k) ≡ false → ended_on (progress x) k < tasks_on (plan x).rows k };
}
