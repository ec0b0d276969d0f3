ghost use Rattle.std.specs.Prelude.{◌≡◌};
ghost use Rattle.runs.specs.Calls.{look, report_answer, reported};
ghost use Rattle.frame.specs.View.{state_of};

use crate::Frame;
use board::Board;
use calls::Refusal;
use rule::Rule;
use runs::{Look, Record};

impl<B: Board, R: Rule> Frame<B, R> {
    // How far the core has come.
    pub fn look(&self, core: u32) -> Result<Look, Refusal>
        ensures { result ≡ look (state_of B.Board self.now) core }
    {
        self.check_core(core)?;
        let at = self.board.core(core);
        let next = self.board.next(core);
        Ok(Look {
            ended: at.ended,
            step: at.step,
            next,
        })
    }

    // Writes a record for each task to the front of the list, and says how many; the rest of the list stays.
    pub fn report(&self, list: &mut [Record]) -> Result<u16, Refusal>
        ensures answer { result ≡ report_answer (state_of B.Board self.now) list.old }
        ensures list { list.new ≡ reported (state_of B.Board self.now) list.old }
    {
        let tasks = self.board.table().tasks();
        let front = usize::from(tasks);
        if list.len() < front {
            return Err(Refusal::ListTooShort);
        }
        list[..front].copy_from_slice(self.table_records());
        Ok(tasks)
    }
}
