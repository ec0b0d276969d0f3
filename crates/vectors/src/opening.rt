ghost use Rattle.std.specs.Prelude.{◌≡◌, ◌<◌, ℕ, Bool, map, is_some, None, slice_index_or};
ghost use Rattle.std.specs.List.{range_with_len};
ghost use Rattle.table.specs.Rows.{row, wait};
ghost use Rattle.table.specs.Sets.{set_of};
ghost use Rattle.table.specs.View.{plan_of};
ghost use Rattle.vectors.specs.Links.{aims, begins, completer, first_target, following, links_of, preceding, task_links, wait_before};
ghost use Rattle.vectors.specs.Phases.{first_vectors, task_vectors};

use crate::state::{Links, TaskLinks, TaskVectors, Vectors};
use std::array;
use table::lawful::Table;
use table::rows::CoreSet;

// The cores at which the test holds. A loop: a chain's lemmas ask for the test at every number, here known below 8.
fn cores_where<F: Fn(u32) -> bool>(test: F) -> CoreSet
    requires { (k : ℕ) → k < 8 → F.pre test k }
    ensures { (f : ℕ → Bool) → ((k : ℕ) (b : Bool) → k < 8 → F.post test k b → b ≡ f k) → result ≡ set_of f }
{
    let mut cores = CoreSet::NONE;
    for k in 0..8 {
        if test(k) {
            cores = cores.with(k);
        }
    }
    cores
}

// A task of a table that a board is opened on.
#[derive(Clone, Copy)]
struct TaskOf<'a> {
    table: &'a Table,
    task: u16,
}

impl TaskOf<'_> {
    // The core on which the task lies.
    fn core(&self) -> u32
        ensures { result ≡ (row (plan_of self.now.table.now) self.now.task).core }
    {
        u32::from(self.table.row(self.task).core)
    }

    // The wait of the task on the core.
    fn wait(&self, core: u32) -> u16
        ensures { result ≡ wait (plan_of self.now.table.now).rows (row (plan_of self.now.table.now) self.now.task) core }
    {
        self.table.wait(self.task, core)
    }

    // The task before this one on its core, if there is one.
    fn preceding(&self) -> Option<u16>
        ensures { result ≡ preceding (plan_of self.now.table.now) self.now.task }
    {
        let place = self.table.place(self.task).checked_sub(1)?;
        self.table.nth_on(self.core(), place)
    }

    // The task after this one on its core, if there is one.
    fn following(&self) -> Option<u16>
        ensures { result ≡ following (plan_of self.now.table.now) self.now.task }
    {
        self.table
            .nth_on(self.core(), self.table.place(self.task) + 1)
    }

    // The wait on the core of the task before this one, 0 if there is none.
    fn wait_before(&self, before: Option<u16>, core: u32) -> u16
        requires { before ≡ preceding (plan_of self.now.table.now) self.now.task }
        ensures { result ≡ wait_before (plan_of self.now.table.now) self.now.task core }
    {
        before.map_or(0, |before| self.table.wait(before, core))
    }

    // Does the task begin to wait on the core: does its wait there exceed that of the task before it?
    fn begins(&self, before: Option<u16>, core: u32) -> bool
        requires { before ≡ preceding (plan_of self.now.table.now) self.now.task }
        ensures { result ≡ begins (plan_of self.now.table.now) self.now.task core }
    {
        self.core() != core && self.wait_before(before, core) < self.wait(core)
    }

    // The task of the core that completes the wait of this task there, if there is one.
    fn completer(&self, core: u32) -> Option<u16>
        ensures { result ≡ completer (plan_of self.now.table.now) self.now.task core }
    {
        self.table.nth_on(core, self.wait(core).saturating_sub(1))
    }

    // The cores on which the task begins to wait.
    fn ready_vector(&self) -> CoreSet
        ensures { result ≡ set_of (begins (plan_of self.now.table.now) self.now.task) }
    {
        let before = self.preceding();
        cores_where(|k| self.begins(before, k))
    }

    // What a board looks up of its table for the task.
    fn links(&self) -> TaskLinks
        ensures { result ≡ task_links (plan_of self.now.table.now) self.now.task }
    {
        TaskLinks {
            completers: array::from_fn(|k| self.completer(k as u32)),
            following: self.following(),
        }
    }
}

// What a board looks up of its table, for every task that a table can have.
fn links(table: &Table) -> Links
    ensures { result ≡ links_of (plan_of table.now) }
{
    Links {
        tasks: array::from_fn(|t| TaskOf {
            table,
            task: t as u16,
        }
        .links()),
    }
}

// The cores on which there is a target.
fn told(targets: &[Option<u16>; 8]) -> CoreSet
    ensures { result ≡ set_of (λ k. is_some (slice_index_or targets.now k None)) }
{
    cores_where(|k| targets[k as usize].is_some())
}

// A table that a board is opened on, with what is looked up of it: the links, and the ready vector of every task.
#[derive(Drop)]
pub(crate) struct Opening<'a> {
    table: &'a Table,
    pub(crate) links: Links,
    // Apart from the links of a task: those go to the board as they are, and this into the board's vectors.
    ready: [CoreSet; 384],
    ghost linked: { links ≡ links_of (plan_of table.now) },
    ghost begun: { ready ≡ map (λ t. set_of (begins (plan_of table.now) t)) (range_with_len 0 384) },
}

// A `TaskOf` holds no links: what needs them takes the task's number.
impl<'a> Opening<'a> {
    pub(crate) fn new(table: &'a Table) -> Opening<'a>
        ensures { plan_of result.table.now ≡ plan_of table.now }
    {
        Opening {
            table,
            links: links(table),
            ready: array::from_fn(|t| TaskOf {
                table,
                task: t as u16,
            }
            .ready_vector()),
        }
    }

    // Does task `i` lie on the core and begin to wait on the core of this task, and does this task complete that wait?
    fn aims(&self, task: u16, core: u32, i: u16) -> bool
        requires { i < 384 }
        ensures { result ≡ aims (plan_of self.now.table.now) task core i }
    {
        if !self.table.row(i).lies_on(core) {
            return false;
        }
        let own = u32::from(self.table.row(task).core);
        self.ready[usize::from(i)].contains(own) && self.links.completer(i, own) == Some(task)
    }

    // The first task of the core that waits for the end of this task, if one does.
    fn first_target(&self, task: u16, core: u32) -> Option<u16>
        ensures { result ≡ first_target (plan_of self.now.table.now) task core }
    {
        (0..self.table.tasks()).find(|i| self.aims(task, core, *i))
    }

    // For each core the task there that waits for the end of this task.
    fn targets_of(&self, task: u16) -> [Option<u16>; 8]
        ensures { result ≡ map (first_target (plan_of self.now.table.now) task) (range_with_len 0 8) }
    {
        array::from_fn(|k| self.first_target(task, k as u32))
    }

    // The vectors of the task before the first start.
    fn task_vectors(&self, task: u16) -> TaskVectors
        requires { task < 384 }
        ensures { result ≡ task_vectors (plan_of self.now.table.now) task }
    {
        let target = self.targets_of(task);
        TaskVectors {
            ready: self.ready[usize::from(task)],
            notify: told(&target),
            target,
        }
    }

    // The vectors before the first start.
    pub(crate) fn vectors(&self) -> Vectors
        ensures { result ≡ first_vectors (plan_of self.now.table.now) }
    {
        Vectors {
            tasks: array::from_fn(|t| self.task_vectors(t as u16)),
            status: [CoreSet::NONE; 8],
        }
    }
}
