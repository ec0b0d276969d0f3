use table::rows::CoreSet;

// The vectors of a task, bit k of each for core k, and its target on each core.
#[derive(Clone, Copy)]
pub(crate) struct TaskVectors {
    // The cores whose notices the task still needs before it may start.
    pub(crate) ready: CoreSet,
    // The cores that are told when the task ends.
    pub(crate) notify: CoreSet,
    // For a core that is told of its end: the task there that waits for it.
    pub(crate) target: [Option<u16>; 8],
}

// The vectors of a board: those of every task that a table can have, and a status vector for every core.
#[derive(Clone, Copy)]
pub struct Vectors {
    pub(crate) tasks: [TaskVectors; 384],
    // The cores from which a core has a notice that it has not used.
    pub(crate) status: [CoreSet; 8],
}

// What depends on the table alone, of one task: for each core the task that completes its wait there, and the task
// after it on its own core.
#[derive(Clone, Copy)]
pub(crate) struct TaskLinks {
    pub(crate) completers: [Option<u16>; 8],
    pub(crate) following: Option<u16>,
}

// What depends on the table alone, of every task that a table can have.
#[derive(Clone, Copy)]
pub struct Links {
    pub(crate) tasks: [TaskLinks; 384],
}
