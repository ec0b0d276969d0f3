// What a line of a session does to a frame and what is shown for it, and how lines are put together from bytes.
#![tactic(auto)]

ghost use Rattle.std.specs.Prelude.{◌≡◌, false, Some};
ghost use Rattle.frame.specs.View.{state_of};
ghost use Rattle.script.specs.Grammar.{read};
ghost use Rattle.console.specs.Played.{line_done, line_played, made_call};
ghost use Rattle.console.specs.Words.{words_of};

use board::Board;
use calls::Reply;
use frame::Frame;
use rule::Rule;
use script::{Line, read_line};
use std::fmt;

pub mod buffer;
pub mod feeding;

// What is shown for a line that is not silent: no `Result` or `Option`, since only a type of this crate can have a
// `Display`.
#[derive(Clone, Copy, PartialEq, Eq, Debug)]
pub enum Shown {
    // The line breaks a rule.
    Bad,
    // The reply to the call that the line writes.
    Reply(Reply),
}

impl fmt::Display for Shown {
    ghost output = { λ x. Some (words_of x) };

    fn fmt<W: fmt::Write>(&self, f: &mut fmt::Formatter<W>) -> fmt::Result {
        match self {
            Shown::Bad => write!(f, "bad"),
            Shown::Reply(reply) => write!(f, "{reply}"),
        }
    }
}

// Plays one line: makes its call, if it writes one, and says what is to be shown. Where no call is made, or the call
// is refused, nothing at all is changed.
pub fn play_line<B: Board, R: Rule>(frame: &mut Frame<B, R>, line: &[u8]) -> Option<Shown>
    ensures played { line_done result (state_of B.Board frame.new) frame.new.rule ≡ line_played R.Rule.says R.Rule.after (read line.now) (state_of B.Board frame.old) frame.old.rule }
    ensures kept { made_call result ≡ false → frame.new ≡ frame.old }
{
    match read_line(line) {
        Line::Silent => None,
        Line::Bad => Some(Shown::Bad),
        Line::Play(call) => Some(Shown::Reply(frame.reply(call))),
    }
}
