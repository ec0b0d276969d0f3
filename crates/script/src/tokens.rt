// The words, numbers and the end of a line, one at a time.
ghost use Rattle.std.specs.Prelude.{◌≡◌, ◌≤◌, length};
ghost use Rattle.script.specs.Grammar.{spaces_off, word_length, digits_value, number, after_word};
ghost use Rattle.script.specs.Tokens.{TokenOf, NumberOf};

// The next part of a line, a form that the project asks for. A word borrows its bytes from the line.
#[derive(Clone, Copy)]
pub enum Token<'a> {
    Word(&'a [u8]),
    Number(u32),
    End,
}

// The most digits that a number has.
const MOST_DIGITS: usize = 9;

// The text without the spaces in front.
fn without_spaces(text: &[u8]) -> &[u8]
    ensures { result.now ≡ spaces_off text.now }
{
    let spaces = text
        .iter()
        .position(|byte| *byte != b' ')
        .unwrap_or(text.len());
    &text[spaces..]
}

// How many bytes stand before the next space, or before the end.
fn word_len(text: &[u8]) -> usize
    ensures value { result ≡ word_length text.now }
    ensures within { result ≤ length text.now }
{
    text.iter()
        .position(|byte| *byte == b' ')
        .unwrap_or(text.len())
}

// The number that the bytes write, if all of them are digits.
#[tactic(auto, using(crate::proofs::Scan::tens_below))]
fn digits_number(digits: &[u8]) -> Option<u32>
    requires { length digits.now ≤ MOST_DIGITS }
    ensures { result ≡ digits_value 0 digits.now }
{
    let mut value = 0;
    for byte in digits {
        value = 10 * value + char::from(*byte).to_digit(10)?;
    }
    Some(value)
}

// The number that a word writes, if it is 1 to 9 digits.
fn number_value(word: &[u8]) -> Option<u32>
    ensures { result ≡ number word.now }
{
    if (1..=MOST_DIGITS).contains(&word.len()) {
        digits_number(word)
    } else {
        None
    }
}

// The next part of a text, and the text after it.
pub fn next_token(text: &[u8]) -> (Token<'_>, &[u8])
    ensures token { TokenOf text.now result.0 }
    ensures rest { result.1.now ≡ after_word text.now }
{
    if text.is_empty() {
        return (Token::End, text);
    }
    let text = without_spaces(text);
    let (word, rest) = text.split_at(word_len(text));
    // Not `map_or`: neither a variant of a type that borrows nor a closure that makes one gets a generated proof there.
    match number_value(word) {
        Some(value) => (Token::Number(value), rest),
        None => (Token::Word(word), rest),
    }
}

// The number that comes next, and the text after it.
pub fn next_number(text: &[u8]) -> Option<(u32, &[u8])>
    ensures { NumberOf text.now result }
{
    match next_token(text) {
        (Token::Number(value), rest) => Some((value, rest)),
        _ => None,
    }
}
