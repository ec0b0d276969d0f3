// The calls of a frame and the replies to them.
#![tactic(auto)]

ghost use Rattle.std.specs.Prelude.{◌≡◌, Some};
ghost use Rattle.calls.specs.Words.{word_of, task_of, number_of, answer_line, refusal_line, line_of, told, noted};

use std::error::Error;
use std::fmt;

// What a core tells the frame, and when, in ticks from the frame's start.
#[derive(Clone, Copy, PartialEq, Eq, Debug)]
pub enum Call {
    // The core is free and asks what it may run.
    Ask { core: u32, time: u32 },
    // The core has ended a task.
    End { core: u32, task: u32, time: u32 },
}

// What a core that asked is told. All but `Over` carry a task's number.
#[derive(Clone, Copy, PartialEq, Eq, Debug)]
pub enum Answer {
    // The core has no task left.
    Over,
    // The task starts, in its turn.
    Go(u16),
    // The task starts, before its turn: it is loose.
    Loose(u16),
    // The task is let go before its turn but waits for its data.
    Data(u16),
    // The task waits for its turn.
    Hold(u16),
}

impl Answer {
    // The first word of the answer's line. The form of the replies names it by cases, so a match says each.
    pub fn word(self) -> &'static str
        ensures { result.now ≡ word_of self }
    {
        match self {
            Answer::Over => "over",
            Answer::Go(_) => "go",
            Answer::Loose(_) => "loose",
            Answer::Data(_) => "data",
            Answer::Hold(_) => "hold",
        }
    }

    // The task that the answer is about, if any. The answers that carry one share no field, so a match says which.
    pub fn task(self) -> Option<u16>
        ensures { result ≡ task_of self }
    {
        match self {
            Answer::Over => None,
            Answer::Go(task) | Answer::Loose(task) | Answer::Data(task) | Answer::Hold(task) => {
                Some(task)
            }
        }
    }
}

// Why a call is refused, each with the number by which it is told.
#[derive(Clone, Copy, PartialEq, Eq, Debug)]
pub enum Refusal {
    // The table has no such core.
    NoSuchCore = 8,
    // The time is before that of an accepted call, or above 268,435,455.
    BadTime = 9,
    // The core asks while it runs a task.
    CoreBusy = 10,
    // The core ends a task that it is not running.
    NotRunning = 11,
    // The caller's list has no record for some task.
    ListTooShort = 12,
}

impl Refusal {
    // The number by which the refusal is told.
    pub fn number(self) -> u8
        ensures { result ≡ number_of self }
    {
        self as u8
    }
}

// What a call comes back with. A `Result` has no `Display` of ours, and an `Ok` of nothing would not say that an end
// was noted.
#[derive(Clone, Copy, PartialEq, Eq, Debug)]
pub enum Reply {
    // The answer to an ask.
    Told(Answer),
    // The end of a task was noted.
    Noted,
    // The call is refused and has changed nothing.
    Refused(Refusal),
}

// The result of an ask, as a reply; below, that of a finish. They are alike only in the refusal.
impl From<Result<Answer, Refusal>> for Reply {
    ghost from_gives = { λ outcome reply. reply ≡ told outcome };

    fn from(outcome: Result<Answer, Refusal>) -> Reply {
        match outcome {
            Ok(answer) => Reply::Told(answer),
            Err(refusal) => Reply::Refused(refusal),
        }
    }
}

// The result of a finish, as a reply.
impl From<Result<(), Refusal>> for Reply {
    ghost from_gives = { λ outcome reply. reply ≡ noted outcome };

    fn from(outcome: Result<(), Refusal>) -> Reply {
        match outcome {
            Ok(()) => Reply::Noted,
            Err(refusal) => Reply::Refused(refusal),
        }
    }
}

impl fmt::Display for Answer {
    ghost output = { λ answer. Some (answer_line answer) };

    fn fmt<W: fmt::Write>(&self, f: &mut fmt::Formatter<W>) -> fmt::Result {
        let word = self.word();
        match self.task() {
            Some(task) => write!(f, "{word} {task}"),
            None => write!(f, "{word}"),
        }
    }
}

impl fmt::Display for Refusal {
    ghost output = { λ refusal. Some (refusal_line refusal) };

    fn fmt<W: fmt::Write>(&self, f: &mut fmt::Formatter<W>) -> fmt::Result {
        let number = self.number();
        write!(f, "no {number}")
    }
}

impl Error for Refusal {}

impl fmt::Display for Reply {
    ghost output = { λ reply. Some (line_of reply) };

    fn fmt<W: fmt::Write>(&self, f: &mut fmt::Formatter<W>) -> fmt::Result {
        match self {
            Reply::Told(answer) => write!(f, "{answer}"),
            Reply::Noted => write!(f, "ok"),
            Reply::Refused(refusal) => write!(f, "{refusal}"),
        }
    }
}
