//! Printing of lines.

ghost use Rattle.std.specs.Prelude.{◌∷◌, All, IsTrue, decimal, flat_map};
ghost use Rattle.am_syntax.specs.Canonical.{Appends, line, spaced_after, term_text};
ghost use Rattle.am_syntax.specs.Lines.{AreEntries, IsLineEntry, entry_words, is_apart, words_of_entries};
ghost use Rattle.am_syntax.specs.Spelling.{FitsSomewhere, letter_code};

use crate::limits::Letter;
use crate::print::print_term;
use am_bv::Term;
use am_text::Writer;
use std::alloc::AllocError;

/// What stands on a line, with a space before each word, number and term.
#[derive(Clone, Copy)]
pub enum Entry<'a> {
    /// A word, which is no parenthesis.
    Word(&'a [u8]),
    /// A number in decimal digits.
    Number(u64),
    /// Numbers in decimal digits.
    Numbers(&'a [u32]),
    /// Bytes, each as a number in decimal digits.
    Bytes(&'a [u8]),
    /// A term whose variables have this letter.
    Term(Letter, &'a Term),
    /// Terms whose variables have this letter.
    Terms(Letter, &'a [Term]),
}

/// Appends a word after a space.
///
/// # Errors
///
/// There was no memory. The writer holds its old text and a part of the new from its beginning.
pub fn print_word(out: &mut Writer, word: &[u8]) -> Result<(), AllocError>
    ensures { Appends result out.old out.new (32 ∷ word.now) }
{
    out.space()?;
    out.word(word)
}

/// Appends a number after a space.
fn print_number(out: &mut Writer, n: u64) -> Result<(), AllocError>
    ensures { Appends result out.old out.new (32 ∷ decimal n) }
{
    out.space()?;
    out.number(u128::from(n))
}

/// Appends each number after a space.
fn print_numbers(out: &mut Writer, numbers: &[u32]) -> Result<(), AllocError>
    ensures { Appends result out.old out.new (flat_map (λ n. 32 ∷ decimal n) numbers.now) }
{
    'numbers: for n in numbers {
        print_number(out, u64::from(*n))?;
    }
    Ok(())
}

/// Appends each byte as a number after a space.
fn print_bytes(out: &mut Writer, bytes: &[u8]) -> Result<(), AllocError>
    ensures { Appends result out.old out.new (flat_map (λ b. 32 ∷ decimal b) bytes.now) }
{
    'bytes: for b in bytes {
        print_number(out, u64::from(*b))?;
    }
    Ok(())
}

/// Appends a term after a space.
fn print_argument(out: &mut Writer, letter: Letter, term: &Term) -> Result<(), AllocError>
    requires { FitsSomewhere term.now }
    ensures { Appends result out.old out.new (32 ∷ term_text (letter_code letter) term.now) }
{
    out.space()?;
    print_term(out, letter, term)
}

/// Appends each term after a space.
fn print_arguments(out: &mut Writer, letter: Letter, terms: &[Term]) -> Result<(), AllocError>
    requires { All FitsSomewhere terms.now }
    ensures { Appends result out.old out.new (flat_map (λ t. 32 ∷ term_text (letter_code letter) t) terms.now) }
{
    'terms: for term in terms {
        print_argument(out, letter, term)?;
    }
    Ok(())
}

/// Appends an entry.
fn print_entry(out: &mut Writer, entry: &Entry<'_>) -> Result<(), AllocError>
    requires { IsLineEntry entry.now }
    ensures { Appends result out.old out.new (spaced_after (entry_words entry.now)) }
{
    match entry {
        Entry::Word(word) => print_word(out, word),
        Entry::Number(n) => print_number(out, *n),
        Entry::Numbers(numbers) => print_numbers(out, numbers),
        Entry::Bytes(bytes) => print_bytes(out, bytes),
        Entry::Term(letter, term) => print_argument(out, *letter, term),
        Entry::Terms(letter, terms) => print_arguments(out, *letter, terms),
    }
}

/// Appends a line of a key word and entries.
///
/// # Errors
///
/// There was no memory. The writer holds its old text and a part of the line from its beginning.
pub fn print_line(out: &mut Writer, key: &[u8], entries: &[Entry<'_>]) -> Result<(), AllocError>
    requires key { IsTrue (is_apart key.now) }
    requires entries { AreEntries entries.now }
    ensures { Appends result out.old out.new (line (key.now ∷ words_of_entries entries.now)) }
{
    out.word(key)?;
    'entries: for entry in entries {
        print_entry(out, entry)?;
    }
    out.newline()
}
