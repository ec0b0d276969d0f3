ghost use Rattle.std.specs.Prelude.{◌<◌, ◌≤◌};
ghost use Rattle.runs.specs.Calls.{last_tick};

// A core's next task, and the time at which the core asks for it.
#[derive(Clone, Copy)]
pub(crate) struct Candidate {
    pub(crate) core: u32,
    pub(crate) task: u16,
    pub(crate) time: u32,
    // A frame has a record for the task.
    ghost within: { task < 384 },
    // A call may carry the time.
    ghost soon: { time ≤ last_tick },
}
