ghost use Rattle.std.specs.Prelude.{◌≡◌, ◌<◌, true, is_err, if◌then◌else◌};
ghost use Rattle.board.specs.Meaning.{clear, easable};
ghost use Rattle.calls.specs.Words.{told};
ghost use Rattle.calls.specs.declared.Reply.TheVariants.{Told};
ghost use Rattle.runs.specs.Calls.{next_of, timely, question, says_to, moved_by, rule_after, outcome, starting, go_on, ease_or_hold, ask};
ghost use Rattle.frame.specs.View.{state_of};

use crate::Frame;
use crate::candidate::Candidate;
use board::Board;
use calls::{Answer, Refusal};
use rule::Rule;
use runs::{Manner, Record};

impl<B: Board, R: Rule> Frame<B, R> {
    // Asks the rule whether the core's next task may be let loose.
    fn grants(&mut self, candidate: Candidate) -> bool
        ensures answer { result ≡ says_to (R.Rule.says self.old.rule) (question (state_of B.Board self.old) candidate.core candidate.time) }
        ensures rule { self.new ≡ record self.old { rule = moved_by R.Rule.after self.old.rule (question (state_of B.Board self.old) candidate.core candidate.time) } }
    {
        let Some(question) = self.question(candidate) else {
            return false;
        };
        self.rule.allows(question)
    }

    // Starts the task on its core, which is clear, and notes it.
    // The clause `rule`, as in `go`, `close` and `finish`: `state_of` tells of all of a frame but its rule.
    #[tactic(auto, using(board::specs::Keeping::take_set_in))]
    fn begin(&mut self, candidate: Candidate, manner: Manner)
        requires { let s = state_of B.Board self.old in clear s.plan s.progress candidate.core ≡ true }
        ensures frame { state_of B.Board self.new ≡ starting (state_of B.Board self.old) candidate.core candidate.task candidate.time manner }
        ensures rule { self.new.rule ≡ self.old.rule }
    {
        self.board.start(candidate.core);
        self.latest = candidate.time;
        self.records[usize::from(candidate.task)] = Record {
            manner,
            start: candidate.time,
            ..Record::FRESH
        };
    }

    // Starts the task on its core, which is clear: in turn or loose, as the core's step says.
    fn go(&mut self, candidate: Candidate) -> Answer
        requires { let s = state_of B.Board self.old in clear s.plan s.progress candidate.core ≡ true }
        ensures outcome { outcome (Told result) (state_of B.Board self.new) ≡ go_on (state_of B.Board self.old) candidate.core candidate.task candidate.time }
        ensures rule { self.new.rule ≡ self.old.rule }
    {
        if self.board.core(candidate.core).step.is_loose() {
            self.begin(candidate, Manner::Loose);
            Answer::Loose(candidate.task)
        } else {
            self.begin(candidate, Manner::InTurn);
            Answer::Go(candidate.task)
        }
    }

    // What an ask comes to where the core's next task is not clear.
    fn ease_or_hold(&mut self, candidate: Candidate) -> Answer
        requires { candidate.task ≡ next_of (state_of B.Board self.old) candidate.core }
        ensures outcome { outcome (Told result) (state_of B.Board self.new) ≡ ease_or_hold (R.Rule.says self.old.rule) (state_of B.Board self.old) candidate.core candidate.time }
        ensures rule { let s = state_of B.Board self.old in self.new.rule ≡ (if easable s.plan s.progress candidate.core then moved_by R.Rule.after self.old.rule (question s candidate.core candidate.time) else self.old.rule) }
    {
        let Candidate { core, task, time } = candidate;
        if self.board.easable(core) && self.grants(candidate) {
            self.board.ease(core);
            if self.board.clear(core) {
                return self.go(candidate);
            }
            self.latest = time;
            return Answer::Data(task);
        }
        self.latest = time;
        if self.board.core(core).step.is_loose() {
            Answer::Data(task)
        } else {
            Answer::Hold(task)
        }
    }

    // What an ask comes to where the core and the time are taken. `outcome` speaks of what the frame remembers, and
    // `kept` of the whole frame, here and in the calls.
    fn answer(&mut self, core: u32, time: u32) -> Result<Answer, Refusal>
        requires core { core < (state_of B.Board self.old).plan.cores }
        requires timely { timely (state_of B.Board self.old) time ≡ true }
        ensures kept { is_err result ≡ true → self.new ≡ self.old }
        ensures outcome { outcome (told result) (state_of B.Board self.new) ≡ ask (R.Rule.says self.old.rule) (state_of B.Board self.old) core time }
        ensures rule { self.new.rule ≡ rule_after R.Rule.after self.old.rule (state_of B.Board self.old) core time }
    {
        if self.board.core(core).step.is_running() {
            return Err(Refusal::CoreBusy);
        }
        let Some(task) = self.next_task(core) else {
            self.latest = time;
            return Ok(Answer::Over);
        };
        let candidate = Candidate { core, task, time };
        if self.board.clear(core) {
            Ok(self.go(candidate))
        } else {
            Ok(self.ease_or_hold(candidate))
        }
    }

    // What the core is to do now. The rule is asked only if the core is not clear and can be eased.
    pub fn ask(&mut self, core: u32, time: u32) -> Result<Answer, Refusal>
        ensures kept { is_err result ≡ true → self.new ≡ self.old }
        ensures outcome { outcome (told result) (state_of B.Board self.new) ≡ ask (R.Rule.says self.old.rule) (state_of B.Board self.old) core time }
        ensures rule { self.new.rule ≡ rule_after R.Rule.after self.old.rule (state_of B.Board self.old) core time }
    {
        self.check_core(core)?;
        self.check_time(time)?;
        self.answer(core, time)
    }
}
