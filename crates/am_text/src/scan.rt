//! Where tokens begin and end.

ghost use Rattle.std.specs.Prelude.{◌≡◌, ◌^◌, ◌+◌, ◌≤◌, ◌<◌, ◌∷◌, length, IfSome, IfNone, []};
ghost use Rattle.std.specs.List.{prefix_len};
ghost use Rattle.am_text.specs.Tokens.{bad_byte, is_space, is_parenthesis, is_word_byte, tokens_at};
ghost use Rattle.am_text.specs.Scan.{token_len};
ghost use Rattle.am_text.specs.Seen.{seen};

use crate::token::Token;

fn is_space(b: u8) -> bool
    ensures { result ≡ is_space b }
{
    b == b' ' || b == b'\n'
}

fn is_parenthesis(b: u8) -> bool
    ensures { result ≡ is_parenthesis b }
{
    b == b'(' || b == b')'
}

fn is_word_byte(b: u8) -> bool
    ensures { result ≡ is_word_byte b }
{
    !is_space(b) && !is_parenthesis(b)
}

/// The place of the first byte that a text may not have.
pub fn bad_byte(bytes: &[u8]) -> Option<usize>
    ensures { result ≡ bad_byte bytes.now }
{
    bytes
        .iter()
        .position(|b| !(*b == b'\n' || (b' ' <= *b && *b <= b'~')))
}

/// How many spaces stand in front.
fn spaces(bytes: &[u8]) -> usize
    ensures value { result ≡ prefix_len is_space bytes.now }
    ensures within { result ≤ length bytes.now }
{
    for (i, b) in bytes.iter().enumerate() {
        if !is_space(*b) {
            return i;
        }
    }
    bytes.len()
}

/// How many bytes of a word stand in front.
fn word_len(bytes: &[u8]) -> usize
    ensures value { result ≡ prefix_len is_word_byte bytes.now }
    ensures within { result ≤ length bytes.now }
{
    for (i, b) in bytes.iter().enumerate() {
        if !is_word_byte(*b) {
            return i;
        }
    }
    bytes.len()
}

/// How long the token in front is, where no space is in front.
fn token_len(bytes: &[u8]) -> usize
    requires { 0 < length bytes.now }
    ensures value { result ≡ token_len bytes.now }
    ensures within { result ≤ length bytes.now }
{
    if is_parenthesis(bytes[0]) {
        1
    } else {
        word_len(bytes)
    }
}

/// The first token of bytes of which the first has this place, and the bytes after it.
pub fn token_from(at: usize, bytes: &[u8]) -> Option<(Token<'_>, &[u8])>
    requires { at + length bytes.now < 2 ^ 64 }
    ensures none { IfNone result (tokens_at at bytes.now ≡ []) }
    ensures some { IfSome result (λ p.
        tokens_at at bytes.now ≡ seen p.0 ∷ tokens_at (p.0.at + length p.0.text.now) p.1.now) }
    ensures end { IfSome result (λ p.
        p.0.at + length p.0.text.now + length p.1.now ≡ at + length bytes.now) }
{
    let (front, rest) = bytes.split_at(spaces(bytes));
    if rest.is_empty() {
        return None;
    }
    let (text, behind) = rest.split_at(token_len(rest));
    let at = at + front.len();
    Some((Token { text, at }, behind))
}
