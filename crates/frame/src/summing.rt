ghost use Rattle.std.specs.Prelude.{◌≡◌, ◌≤◌, if◌then◌else◌, Some, None, slice_index_or};
ghost use Rattle.runs.specs.Records.{fresh, went_loose};
ghost use Rattle.runs.specs.Calls.{next_of, next_row, not_over, at_large, lowest_start, slack, reserve, loose_count, question, sums};
ghost use Rattle.frame.specs.View.{state_of, Soon};

use crate::candidate::Candidate;
use crate::{Frame, LAST_TICK};
use board::Board;
use calls::Refusal;
use rule::Rule;
use rule::question::Question;

impl<B: Board, R: Rule> Frame<B, R> {
    // Was the core's next task started loose?
    fn runs_loose(&self, core: u32) -> bool
        ensures { let s = state_of B.Board self.now in result ≡ went_loose (slice_index_or s.records (next_of s core) fresh).manner }
    {
        let Some(task) = self.board.next(core) else {
            return false;
        };
        self.records[usize::from(task)].manner.is_loose()
    }

    // Was the core's next task let loose, and has it not ended?
    fn at_large(&self, core: u32) -> bool
        ensures { result ≡ at_large (state_of B.Board self.now) core }
    {
        let step = self.board.core(core).step;
        step.is_loose() || (step.is_running() && self.runs_loose(core))
    }

    // The start of the core's next task, if the core is not over.
    // `soon`, as in `lowest_start`: by it `slack` has an `i32` for the difference.
    fn next_start(&self, core: u32) -> Option<u32>
        ensures is { let s = state_of B.Board self.now in result ≡ (if not_over s.progress core then Some (next_row s core).start else None) }
        ensures soon { Soon result }
    {
        if self.board.core(core).step.is_over() {
            None
        } else {
            Some(self.next_row(core).start)
        }
    }

    // The smallest start among the next tasks of the cores that are not over.
    fn lowest_start(&self) -> Option<u32>
        ensures is { result ≡ lowest_start (state_of B.Board self.now) }
        ensures soon { Soon result }
    {
        (0..self.cores()).filter_map(|k| self.next_start(k)).min()
    }

    // The claims of the tasks let loose and not ended, and how many there are, in one pass over the cores.
    // Neither sum reaches its type's end: there are at most 8 cores, and each claim is below 2^21, which is known of the
    // rows of a table's value; so the table is read here.
    fn all_at_large(&self) -> (u32, u8)
        ensures { let s = state_of B.Board self.now in result ≡ (reserve s, loose_count s) }
    {
        let cores = u32::from(self.board.table().cores());
        (0..cores)
            .filter(|k| self.at_large(*k))
            .fold((0, 0), |sums, k| {
                (
                    sums.0.saturating_add(self.next_row(k).claim),
                    sums.1.saturating_add(1),
                )
            })
    }

    // That smallest start less the time; none when all cores are over.
    fn slack(&self, time: u32) -> Option<i32>
        requires { time ≤ LAST_TICK }
        ensures { result ≡ slack (state_of B.Board self.now) time }
    {
        self.lowest_start().map(|start| start as i32 - time as i32)
    }

    // What the rule is asked about the candidate; nothing when all cores are over.
    pub(crate) fn question(&self, candidate: Candidate) -> Option<Question>
        ensures { result ≡ question (state_of B.Board self.now) candidate.core candidate.time }
    {
        let slack = self.slack(candidate.time)?;
        let (reserve, loose) = self.all_at_large();
        Some(Question {
            slack,
            reserve,
            claim: self.next_row(candidate.core).claim,
            loose,
        })
    }

    // Slack, reserve and the number of tasks let loose and not ended, at a time that a call may carry.
    // The tuple is a form that the project asks for.
    pub fn sums(&self, time: u32) -> Result<(Option<i32>, u32, u8), Refusal>
        ensures { result ≡ sums (state_of B.Board self.now) time }
    {
        self.check_time(time)?;
        let (reserve, open) = self.all_at_large();
        Ok((self.slack(time), reserve, open))
    }
}
