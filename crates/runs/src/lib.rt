// What a frame notes of its tasks and its calls. What each call answers and leaves, what a log of calls tells, the
// plant and the promises are defined in specs/; that every run keeps the promises is proved in proofs/.
#![tactic(auto)]

ghost use Rattle.std.specs.Prelude.{◌≡◌};
ghost use Rattle.calls.specs.declared.Reply.TheVariants.{Noted};
ghost use Rattle.runs.specs.Records.{manner_number, went_loose};

use board::cores::Step;
use calls::{Call, Reply};

// A call, and the reply to it.
#[derive(Clone, Copy, PartialEq, Eq, Debug)]
pub struct Event {
    pub call: Call,
    pub reply: Reply,
}

impl Event {
    // The call with a place for its reply, which any reply fills until the call is made. It is no `Option`: once the
    // list is played, every event has its reply.
    pub fn new(call: Call) -> Event
        ensures { result ≡ record { call = call; reply = Noted } }
    {
        Event {
            call,
            reply: Reply::Noted,
        }
    }
}

// How a task was started, each with the number by which it is told.
#[derive(Clone, Copy, PartialEq, Eq, Debug)]
pub enum Manner {
    NotStarted = 0,
    // In its turn: the answer was go.
    InTurn = 1,
    // Before its turn: the answer was loose.
    Loose = 2,
}

impl Manner {
    // The number by which the manner is told.
    pub fn number(self) -> u8
        ensures { result ≡ manner_number self }
    {
        self as u8
    }

    // The task was started before its turn. The test has a name, as those of a step have.
    pub fn is_loose(self) -> bool
        ensures { result ≡ went_loose self }
    {
        matches!(self, Manner::Loose)
    }
}

// What a report tells of a task. A time that is missing is 0: a form that the project asks for.
#[derive(Clone, Copy, PartialEq, Eq, Debug)]
pub struct Record {
    pub manner: Manner,
    pub start: u32,
    pub ended: bool,
    pub end: u32,
}

impl Record {
    // The record of a task that has not started.
    pub const FRESH: Record = Record {
        manner: Manner::NotStarted,
        start: 0,
        ended: false,
        end: 0,
    };
}

// What a look at a core shows: how many of its tasks have ended, the step of its next one, and which that is.
#[derive(Clone, Copy, PartialEq, Eq, Debug)]
pub struct Look {
    pub ended: u16,
    pub step: Step,
    pub next: Option<u16>,
}
