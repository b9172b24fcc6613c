//! Words that are numerals or names.

ghost use Rattle.std.specs.Prelude.{◌≡◌, ◌+◌, ◌*◌, ◌-◌, ◌≤◌, ◌^◌, IfNone, IfSome};
ghost use Rattle.std.specs.List.{list_all};
ghost use Rattle.am_syntax.specs.Numerals.{is_alphanumeric, is_canonical, is_digit, is_digits};
ghost use Rattle.am_syntax.specs.Numerals.{is_name, is_numeral, number_of};

fn all_digits(word: &[u8]) -> bool
    ensures { result ≡ list_all is_digit word.now }
{
    word.iter().all(|b| b'0' <= *b && *b <= b'9')
}

/// Whether no zero stands in front of another digit.
pub fn is_canonical(word: &[u8]) -> bool
    ensures { result ≡ is_canonical word.now }
{
    match word {
        [] => false,
        [first, others @ ..] => others.is_empty() || *first != b'0',
    }
}

/// Whether a word is a row of digits.
pub fn is_digits(word: &[u8]) -> bool
    ensures { result ≡ is_digits word.now }
{
    !word.is_empty() && all_digits(word)
}

/// Whether a word is the decimal text of a number.
pub fn is_numeral(word: &[u8]) -> bool
    ensures { result ≡ is_numeral word.now }
{
    is_canonical(word) && all_digits(word)
}

/// A number with one more digit at its end, or `None` from 2^64 on.
fn with_digit(n: u64, digit: u8) -> Option<u64>
    ensures some { IfSome result (λ m. m ≡ 10 * n + (digit - 48)) }
    ensures none { IfNone result (2 ^ 64 ≤ 10 * n + (digit - 48)) }
{
    n.checked_mul(10)?
        .checked_add(u64::from(digit.saturating_sub(b'0')))
}

/// The number of a row of digits, or `None` from 2^64 on.
pub fn number_of(word: &[u8]) -> Option<u64>
    ensures some { IfSome result (λ n. n ≡ number_of word.now) }
    ensures none { IfNone result (2 ^ 64 ≤ number_of word.now) }
{
    let mut n: u64 = 0;
    for b in word {
        n = with_digit(n, *b)?;
    }
    Some(n)
}

fn all_alphanumeric(word: &[u8]) -> bool
    ensures { result ≡ list_all is_alphanumeric word.now }
{
    word.iter().all(|b| (b'0' <= *b && *b <= b'9')
        || (b'A' <= *b && *b <= b'Z')
        || (b'a' <= *b && *b <= b'z'))
}

/// Whether a word is a nonterminal: 1 to 16 letters and digits, a capital letter first.
pub fn is_name(word: &[u8]) -> bool
    ensures { result ≡ is_name word.now }
{
    match word {
        [] => false,
        [first, others @ ..] => {
            b'A' <= *first && *first <= b'Z' && others.len() <= 15 && all_alphanumeric(others)
        }
    }
}
