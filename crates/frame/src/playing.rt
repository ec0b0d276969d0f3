ghost use Rattle.std.specs.Prelude.{◌≡◌, false, [], map};
ghost use Rattle.table.specs.View.{plan_of};
ghost use Rattle.runs.specs.Calls.{opening, outcome, respond, rule_left, left_by, played};
ghost use Rattle.runs.specs.Log.{accepts};
ghost use Rattle.runs.specs.Promises.{Promises};
ghost use Rattle.frame.specs.View.{state_of, call_of};

use crate::Frame;
use board::Board;
use calls::{Call, Reply};
use rule::Rule;
use runs::Event;
use table::lawful::Table;

impl<B: Board, R: Rule> Frame<B, R> {
    // Makes the call, whichever it is.
    pub fn reply(&mut self, call: Call) -> Reply
        ensures kept { accepts result ≡ false → self.new ≡ self.old }
        ensures outcome { outcome result (state_of B.Board self.new) ≡ respond (R.Rule.says self.old.rule) (state_of B.Board self.old) call }
        ensures rule { self.new.rule ≡ rule_left R.Rule.after self.old.rule (state_of B.Board self.old) call }
    {
        match call {
            Call::Ask { core, time } => self.ask(core, time).into(),
            Call::End { core, task, time } => self.finish(core, task, time).into(),
        }
    }

    // Makes the event's call, and fills in the reply.
    fn fill(&mut self, event: &mut Event)
        ensures call { event.new.call ≡ event.old.call }
        ensures outcome { outcome event.new.reply (state_of B.Board self.new) ≡ respond (R.Rule.says self.old.rule) (state_of B.Board self.old) event.old.call }
        ensures rule { self.new.rule ≡ rule_left R.Rule.after self.old.rule (state_of B.Board self.old) event.old.call }
    {
        event.reply = self.reply(event.call);
    }
}

// Opens a frame, makes the calls of the list in their order, and fills in the replies.
pub fn play<B: Board, R: Rule>(
    table: &Table,
    board: B,
    rule: R,
    events: &mut [Event],
) -> Frame<B, R>
    ensures calls { map call_of events.new ≡ map call_of events.old }
    ensures played { left_by events.new (state_of B.Board result) result.rule ≡ played R.Rule.says R.Rule.after (map call_of events.old) rule (opening (plan_of table.now)) [] }
    ensures promises { Promises (plan_of table.now) events.new }
{
    let mut frame = Frame::open(table, board, rule);
    for event in events.iter_mut() {
        frame.fill(event);
    }
    frame
}
