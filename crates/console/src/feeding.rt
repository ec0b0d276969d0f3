ghost use Rattle.std.specs.Prelude.{◌≡◌};
ghost use Rattle.frame.specs.View.{state_of};
ghost use Rattle.console.specs.Kept.{kept};
ghost use Rattle.console.specs.Played.{line_done};
ghost use Rattle.console.specs.Fed.{fed, byte_fed};

use crate::buffer::LineBuffer;
use crate::{Shown, play_line};
use board::Board;
use frame::Frame;
use rule::Rule;

// Takes the next byte of the input. A newline ends the line so far, which is played, and the next line begins; any
// other byte is added to the line.
pub fn take_byte<B: Board, R: Rule>(
    frame: &mut Frame<B, R>,
    line: &mut LineBuffer,
    byte: u8,
) -> Option<Shown>
    ensures { fed (kept line.new) (line_done result (state_of B.Board frame.new) frame.new.rule) ≡ byte_fed R.Rule.says R.Rule.after byte (kept line.old) (state_of B.Board frame.old) frame.old.rule }
{
    if byte != b'\n' {
        line.push(byte);
        return None;
    }
    let shown = play_line(frame, line.line());
    line.clear();
    shown
}
