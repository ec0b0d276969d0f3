ghost use Rattle.std.specs.Prelude.{◌≡◌, slice_set};
ghost use Rattle.std.specs.Fn.{FnOnceReturnsAtMut};
ghost use Rattle.vectors.specs.Links.{completer_of, following_of};
ghost use Rattle.vectors.specs.Linked.{drop_linked, dropped, ease_linked};
ghost use Rattle.vectors.specs.Phases.{end_vectors, hand_on, notice, noticed, notify_of, ready_of, retarget, set_notify, set_ready, set_status, set_target, start_vectors, status_of, target_of, unready, vectors_at, withdraw};

use crate::slots::{entry, put};
use crate::state::{Links, TaskVectors, Vectors};
use table::rows::CoreSet;

impl Links {
    // The task of the core that completes the task's wait there.
    pub(crate) fn completer(&self, task: u16, core: u32) -> Option<u16>
        ensures { result ≡ completer_of self.now task core }
    {
        let links = self.tasks.get(usize::from(task))?;
        entry(&links.completers, core as usize, None)
    }

    // The task after the task on its core.
    pub(crate) fn following(&self, task: u16) -> Option<u16>
        ensures { result ≡ following_of self.now task }
    {
        self.tasks.get(usize::from(task))?.following
    }
}

// A core and a task stay two arguments: often the task lies on another core, so a pair of them would mean two things.
impl Vectors {
    // The ready vector of a task, its notification vector, its target on a core; the status vector of a core.
    pub(crate) fn ready_of(&self, task: u16) -> CoreSet
        ensures { result ≡ ready_of self.now task }
    {
        self.tasks
            .get(usize::from(task))
            .map_or(CoreSet::NONE, |vectors| vectors.ready)
    }

    pub(crate) fn notify_of(&self, task: u16) -> CoreSet
        ensures { result ≡ notify_of self.now task }
    {
        self.tasks
            .get(usize::from(task))
            .map_or(CoreSet::NONE, |vectors| vectors.notify)
    }

    pub(crate) fn target_of(&self, task: u16, core: u32) -> Option<u16>
        ensures { result ≡ target_of self.now task core }
    {
        let vectors = self.tasks.get(usize::from(task))?;
        entry(&vectors.target, core as usize, None)
    }

    pub(crate) fn status_of(&self, core: u32) -> CoreSet
        ensures { result ≡ status_of self.now core }
    {
        entry(&self.status, core as usize, CoreSet::NONE)
    }

    // Changes the vectors of the task; there is nothing to change if there can be no such task.
    fn change<F: FnOnce(&mut TaskVectors)>(&mut self, task: u16, by: F)
        requires { F.IsAlwaysCallable by }
        ensures { (to : TaskVectors) → ((is : TaskVectors) → FnOnceReturnsAtMut F.FnOnce by (vectors_at self.old task) tt is → is ≡ to) → self.new ≡ record self.old { tasks = slice_set self.old.tasks task to } }
    {
        let at = usize::from(task);
        if at < self.tasks.len() {
            by(&mut self.tasks[at]);
        }
    }

    fn set_ready(&mut self, task: u16, to: CoreSet)
        ensures { self.new ≡ set_ready self.old task to }
    {
        self.change(task, |vectors| vectors.ready = to);
    }

    fn set_notify(&mut self, task: u16, to: CoreSet)
        ensures { self.new ≡ set_notify self.old task to }
    {
        self.change(task, |vectors| vectors.notify = to);
    }

    // Gives the task another target on the core.
    fn set_target(&mut self, task: u16, core: u32, to: u16)
        ensures { self.new ≡ set_target self.old task core to }
    {
        self.change(
            task,
            |vectors| put(&mut vectors.target, core as usize, Some(to)),
        );
    }

    fn set_status(&mut self, core: u32, to: CoreSet)
        ensures { self.new ≡ set_status self.old core to }
    {
        put(&mut self.status, core as usize, to);
    }

    // Has the core every notice that the task needs?
    pub(crate) fn noticed(&self, core: u32, task: u16) -> bool
        ensures { result ≡ noticed self.now core task }
    {
        self.status_of(core).includes(self.ready_of(task))
    }

    // The task starts on the core: the notices that it needed are used.
    pub(crate) fn start(&mut self, core: u32, task: u16)
        ensures { self.new ≡ start_vectors self.old core task }
    {
        let left = self.status_of(core).less(self.ready_of(task));
        self.set_status(core, left);
    }

    // The task, if a look-up found one, needs no notice from the core any more. This and `withdraw` differ in the field
    // that they read and write, which takes two closures to say once.
    fn unready(&mut self, task: Option<u16>, core: u32)
        ensures { self.new ≡ unready self.old task core }
    {
        if let Some(task) = task {
            let less = self.ready_of(task).without(core);
            self.set_ready(task, less);
        }
    }

    // Core `from`, whose task has ended, tells core `to`.
    fn notice(&mut self, from: u32, task: u16, to: u32)
        ensures { self.new ≡ notice self.old from task to }
    {
        let status = self.status_of(to);
        if status.contains(from) {
            let target = self.target_of(task, to);
            self.unready(target, from);
        } else {
            self.set_status(to, status.with(from));
        }
    }

    // The task has ended on the core: all cores in its notification vector are told.
    // A loop over the core numbers: a set has no iterator, and a chain would hide that each step writes.
    pub(crate) fn end(&mut self, core: u32, task: u16)
        ensures { self.new ≡ end_vectors 8 self.old core task }
    {
        let told = self.notify_of(task);
        for to in 0..8 {
            if told.contains(to) {
                self.notice(core, task, to);
            }
        }
    }

    // The end of the task, if a look-up found one, is of no use to the core any more.
    fn withdraw(&mut self, task: Option<u16>, core: u32)
        ensures { self.new ≡ withdraw self.old task core }
    {
        if let Some(task) = task {
            let less = self.notify_of(task).without(core);
            self.set_notify(task, less);
        }
    }

    // The end of the task, if a look-up found one, is for task `to` of the core now.
    fn retarget(&mut self, task: Option<u16>, core: u32, to: u16)
        ensures { self.new ≡ retarget self.old task core to }
    {
        if let Some(task) = task {
            self.set_target(task, core, to);
        }
    }

    // A dropped wait of the core for core `other`, which `completer` completes, goes to the following task,
    // if that begins none of its own there.
    fn hand_on(&mut self, following: Option<u16>, core: u32, completer: Option<u16>, other: u32)
        ensures { self.new ≡ hand_on self.old following core completer other }
    {
        let Some(next) = following else {
            return self.withdraw(completer, core);
        };
        let ready = self.ready_of(next);
        if ready.contains(other) {
            return self.withdraw(completer, core);
        }
        self.set_ready(next, ready.with(other));
        self.retarget(completer, core, next);
    }

    // The task of the core drops its wait for core `other`.
    fn drop_bit(&mut self, links: &Links, core: u32, task: u16, other: u32)
        ensures { self.new ≡ drop_linked links.now self.old core task other }
    {
        self.unready(Some(task), other);
        self.hand_on(
            links.following(task),
            core,
            links.completer(task, other),
            other,
        );
    }

    // The waits of the core's task that easing drops: no notice has come for them, and they are not for data.
    pub(crate) fn dropped(&self, core: u32, task: u16, inputs: CoreSet) -> CoreSet
        ensures { result ≡ dropped self.now core task inputs }
    {
        self.ready_of(task).less(self.status_of(core)).less(inputs)
    }

    // The core's task is let loose: it drops each wait that easing drops, in a loop like that of `end`.
    pub(crate) fn ease(&mut self, links: &Links, core: u32, task: u16, inputs: CoreSet)
        ensures { self.new ≡ ease_linked 8 links.now (dropped self.old core task inputs) self.old core task }
    {
        let dropped = self.dropped(core, task, inputs);
        for other in 0..8 {
            if dropped.contains(other) {
                self.drop_bit(links, core, task, other);
            }
        }
    }
}
