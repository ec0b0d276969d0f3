// One line of a session script: a call to play, nothing, or a line that is no good.
#![tactic(auto)]

ghost use Rattle.std.specs.Prelude.{◌≡◌, ◌≤◌, length};
ghost use Rattle.script.specs.Grammar.{read, read_call, read_command, read_ask, read_end, close, play};
ghost use Rattle.script.specs.Lines.{ReadsExactly};

use calls::Call;

mod tokens;

use tokens::{Token, next_number, next_token};

// What a line asks for. A `Result<Option<Call>, _>` would leave its three outcomes without their names.
#[derive(Clone, Copy, PartialEq, Eq, Debug)]
pub enum Line {
    // Nothing: the line is empty or a comment.
    Silent,
    // The call that the line writes.
    Play(Call),
    // The line breaks a rule.
    Bad,
}

// The longest line, in bytes.
const LONGEST: usize = 80;

// The call, if nothing stands after its last word.
fn closed(text: &[u8], call: Call) -> Option<Call>
    ensures { result ≡ close text.now call }
{
    match next_token(text) {
        (Token::End, _) => Some(call),
        (Token::Word(_) | Token::Number(_), _) => None,
    }
}

// What follows the word `ask`: a core and a time.
fn ask_call(text: &[u8]) -> Option<Call>
    ensures { result ≡ read_ask text.now }
{
    let (core, text) = next_number(text)?;
    let (time, text) = next_number(text)?;
    closed(text, Call::Ask { core, time })
}

// What follows the word `end`: a core, a task and a time.
fn end_call(text: &[u8]) -> Option<Call>
    ensures { result ≡ read_end text.now }
{
    let (core, text) = next_number(text)?;
    let (task, text) = next_number(text)?;
    let (time, text) = next_number(text)?;
    closed(text, Call::End { core, task, time })
}

// The call of a command word and of what follows it.
// The word is decided by character literals, a form that the project asks for.
#[tactic(auto, using(crate::proofs::Scan::command_none))]
fn command_call(word: &[u8], text: &[u8]) -> Option<Call>
    ensures { result ≡ read_command word.now text.now }
{
    match word {
        [b'a', b's', b'k'] => ask_call(text),
        [b'e', b'n', b'd'] => end_call(text),
        _ => None,
    }
}

// The call that a line writes, if it writes one.
#[tactic(auto, using(crate::proofs::Scan::number_none))]
fn line_call(line: &[u8]) -> Option<Call>
    ensures { result ≡ read_call line.now }
{
    match next_token(line) {
        (Token::Word(word), rest) => command_call(word, rest),
        (Token::Number(_) | Token::End, _) => None,
    }
}

// What a line that is not too long asks for, by its first byte.
fn short_line(line: &[u8]) -> Line
    requires { length line.now ≤ LONGEST }
    ensures { result ≡ read line.now }
{
    match line {
        [] | [b'#', ..] => Line::Silent,
        [b' ', ..] => Line::Bad,
        _ => line_call(line).map_or(Line::Bad, Line::Play),
    }
}

// What a line asks for.
#[tactic(auto, using(crate::proofs::Exactly::reads_exactly))]
pub fn read_line(line: &[u8]) -> Line
    ensures answer { result ≡ read line.now }
    ensures exactly { ReadsExactly line.now }
{
    if line.len() > LONGEST {
        Line::Bad
    } else {
        short_line(line)
    }
}
