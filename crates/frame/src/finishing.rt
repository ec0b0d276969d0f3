ghost use Rattle.std.specs.Prelude.{◌≡◌, ◌<◌, true, length, is_err};
ghost use Rattle.board.specs.Steps.{is_running};
ghost use Rattle.board.specs.Meaning.{step_of};
ghost use Rattle.calls.specs.Words.{noted};
ghost use Rattle.runs.specs.Calls.{runs_on, outcome, ending, finish};
ghost use Rattle.frame.specs.View.{state_of};

use crate::Frame;
use board::Board;
use calls::Refusal;
use rule::Rule;
use runs::Record;

impl<B: Board, R: Rule> Frame<B, R> {
    // Does the core run this task? It may be any number, so the three numbers of a finish are no candidate.
    fn runs(&self, core: u32, task: u32) -> bool
        ensures is { result ≡ runs_on (state_of B.Board self.now) core task }
        ensures within { result ≡ true → task < length (state_of B.Board self.now).plan.rows }
    {
        self.board.core(core).step.is_running()
            && self
                .next_task(core)
                .is_some_and(|next| u32::from(next) == task)
    }

    // Ends the task that the core runs, and notes it.
    #[tactic(auto, using(board::specs::Keeping::take_set_in, std::proofs::lemmas::Grind::common_steps))]
    fn close(&mut self, core: u32, task: u32, time: u32)
        requires running { is_running (step_of (state_of B.Board self.old).progress core) ≡ true }
        requires within { task < length (state_of B.Board self.old).plan.rows }
        ensures frame { state_of B.Board self.new ≡ ending (state_of B.Board self.old) core task time }
        ensures rule { self.new.rule ≡ self.old.rule }
    {
        self.board.end(core);
        self.latest = time;
        let record = &mut self.records[task as usize];
        record.ended = true;
        record.end = time;
    }

    // The core has finished the task.
    pub fn finish(&mut self, core: u32, task: u32, time: u32) -> Result<(), Refusal>
        ensures kept { is_err result ≡ true → self.new ≡ self.old }
        ensures outcome { outcome (noted result) (state_of B.Board self.new) ≡ finish (state_of B.Board self.old) core task time }
        ensures rule { self.new.rule ≡ self.old.rule }
    {
        self.check_core(core)?;
        self.check_time(time)?;
        if !self.runs(core, task) {
            return Err(Refusal::NotRunning);
        }
        self.close(core, task, time);
        Ok(())
    }
}
