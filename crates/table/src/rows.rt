ghost use Rattle.std.specs.Prelude.{◌≡◌, not};
ghost use Rattle.table.specs.Below.{any_below};
ghost use Rattle.table.specs.Sets.{has, includes, less, with, without};
ghost use Rattle.table.specs.Rows.{on, ends_by};

// A set of cores: one bit for each of 8 cores, the least significant for core 0.
#[derive(Clone, Copy, PartialEq, Eq, Debug)]
pub struct CoreSet {
    pub bits: u8,
}

impl CoreSet {
    // No core.
    pub const NONE: CoreSet = CoreSet { bits: 0 };

    pub fn contains(self, core: u32) -> bool
        ensures { result ≡ has self core }
    {
        core < 8 && (self.bits >> core) % 2 == 1
    }

    // The set and this core, if there can be such a core.
    pub fn with(self, core: u32) -> CoreSet
        ensures { result ≡ with self core }
    {
        if core < 8 {
            CoreSet {
                bits: self.bits | (1 << core),
            }
        } else {
            self
        }
    }

    // The set but this core.
    pub fn without(self, core: u32) -> CoreSet
        ensures { result ≡ without self core }
    {
        if core < 8 {
            CoreSet {
                bits: self.bits & !(1 << core),
            }
        } else {
            self
        }
    }

    // The set but the cores of the other.
    pub fn less(self, other: CoreSet) -> CoreSet
        ensures { result ≡ less self other }
    {
        CoreSet {
            bits: self.bits & !other.bits,
        }
    }

    pub fn is_empty(self) -> bool
        ensures { result ≡ not (any_below 8 (has self)) }
    {
        self.bits == 0
    }

    // Is every core of the other set in this one?
    pub fn includes(self, other: CoreSet) -> bool
        ensures { result ≡ includes self other }
    {
        self.bits & other.bits == other.bits
    }
}

// One row of a table: the task of this number runs on `core`, from `start` to `end` at worst.
#[derive(Clone, Copy, PartialEq, Eq, Debug)]
pub struct Row {
    pub core: u8,
    pub start: u32,
    pub end: u32,
    // The most ticks in which the task, run out of turn, holds up others or is held up.
    pub claim: u32,
    // The cores whose tasks write what this task reads: its data bits.
    pub inputs: CoreSet,
}

impl Row {
    // No row: it takes no time, claims nothing and waits for nothing.
    pub const BLANK: Row = Row {
        core: 0,
        start: 0,
        end: 0,
        claim: 0,
        inputs: CoreSet::NONE,
    };

    // Does the row lie on the core?
    pub fn lies_on(self, core: u32) -> bool
        ensures { result ≡ on core self }
    {
        u32::from(self.core) == core
    }

    // Does the row lie on the core and end by the time?
    pub(crate) fn ends_by(self, core: u32, time: u32) -> bool
        ensures { result ≡ ends_by core time self }
    {
        self.lies_on(core) && self.end <= time
    }
}
