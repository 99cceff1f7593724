// The token that begins at a place of a text: which one it is, its value, and where it ends. Nothing is copied, and one
// loop goes over a token's bytes.

#![tactic(auto)]

mod bytes;
mod runs;
pub mod tokens;
mod words;

ghost use Rattle.std.specs.Prelude.{◌≡◌, [], ◌∷◌, ◌+◌, ◌^◌, ◌<◌, length, drop, get_or};
ghost use Rattle.grammar.specs.Scanning.{is_blank, is_digit, numeral_of, token_at};
ghost use Rattle.grammar.specs.Fronts.{run};
ghost use Rattle.scanner.specs.Lexed.{lexed, told_at, word_at, symbol_at};

use runs::{WordBytes, number_at, run_at};

// A token by its number in `tokens`, the value of a numeral or a variable, else 0, and the place after the token.
#[derive(Clone, Copy)]
pub struct Token {
    pub kind: usize,
    pub value: usize,
    pub end: usize,
}

// Whether a byte parts tokens: a space, a tab, CR or LF.
pub fn is_blank(byte: u8) -> bool
    ensures { result ≡ is_blank byte }
{
    matches!(byte, b' ' | b'\t' | b'\r' | b'\n')
}

// A token with no value.
fn plain(kind: usize, end: usize) -> Token
    ensures { result ≡ record { kind = kind; value = 0; end = end } }
{
    Token {
        kind,
        value: 0,
        end,
    }
}

// A numeral.
#[tactic(auto, using(grammar::specs::Fronts::length_run), unfolding(crate::specs::Lexed::lexed, grammar::specs::Numbers::token_number, grammar::specs::Numbers::token_value))]
fn numeral_at(text: &[u8], at: usize) -> Token
    ensures { result ≡ lexed at (numeral_of (run is_digit (drop at text.now))) }
{
    let digits = number_at(text, at);
    Token {
        kind: tokens::NUMERAL,
        value: digits.number,
        end: digits.end,
    }
}

// A word that begins with v: no keyword does.
fn variable_at(text: &[u8], at: usize) -> Option<Token>
    requires { (at < length text.now) × (get_or text.now at 0 ≡ 118) }
    ensures { result ≡ told_at at (word_at (drop at text.now)) }
{
    let digits = number_at(text, at + 1);
    let end = digits.end;
    if end == at + 1 || bytes::is_word_byte(bytes::byte_at(text, end)) {
        return None;
    }
    Some(Token {
        kind: tokens::VARIABLE,
        value: digits.number,
        end,
    })
}

// A word that begins with another letter: a keyword, or no token.
fn keyword_at(text: &[u8], at: usize) -> Option<Token>
    requires { (at < length text.now) × (get_or text.now at 0 ≡ 118 → ⊥) }
    ensures { result ≡ told_at at (word_at (drop at text.now)) }
{
    let word = run_at::<WordBytes>(text, at);
    let kind = words::keyword(word.number)?;
    Some(plain(kind, word.end))
}

// A symbol, by its first byte and the byte after it.
#[tactic(auto, unfolding(crate::specs::Lexed::lexed, crate::specs::Lexed::symbol_at, grammar::specs::Numbers::token_number, grammar::specs::Numbers::token_value))]
fn symbol_at(byte: u8, next: u8, at: usize) -> Option<Token>
    requires { at + 2 < 2 ^ 64 }
    ensures { result ≡ told_at at (symbol_at (byte ∷ next ∷ [])) }
{
    let token = match (byte, next) {
        (b':', b'=') => plain(tokens::BECOMES, at + 2),
        (b'<', b'=') => plain(tokens::AT_MOST, at + 2),
        (b'<', b'>') => plain(tokens::UNEQUAL, at + 2),
        (b'<', _) => plain(tokens::LESS, at + 1),
        (b'=', _) => plain(tokens::EQUAL, at + 1),
        (b'+', _) => plain(tokens::PLUS, at + 1),
        (b'-', _) => plain(tokens::MINUS, at + 1),
        (b'*', _) => plain(tokens::TIMES, at + 1),
        (b'(', _) => plain(tokens::OPEN, at + 1),
        (b')', _) => plain(tokens::CLOSE, at + 1),
        (b',', _) => plain(tokens::COMMA, at + 1),
        (b';', _) => plain(tokens::SEMICOLON, at + 1),
        _ => return None,
    };
    Some(token)
}

// The token that begins at a place, if one does. None begins past the end of the text.
pub fn token_at(text: &[u8], at: usize) -> Option<Token>
    ensures { result ≡ told_at at (token_at (drop at text.now)) }
{
    let byte = *text.get(at)?;
    if bytes::is_digit(byte) {
        return Some(numeral_at(text, at));
    }
    if byte == b'v' {
        return variable_at(text, at);
    }
    if bytes::is_letter(byte) {
        return keyword_at(text, at);
    }
    symbol_at(byte, bytes::byte_at(text, at + 1), at)
}
