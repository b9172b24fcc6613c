//! Printing of terms.

ghost use Rattle.am_syntax.specs.Canonical.{Appends, term_text};
ghost use Rattle.am_syntax.specs.Spelling.{FitsSomewhere, letter_code};

use crate::limits::Letter;
use crate::names::op_name;
use am_bv::Term;
use am_text::Writer;
use std::alloc::AllocError;

/// Appends a term's canonical text: one space between two words, but none after `(` nor before
/// `)`.
///
/// # Errors
///
/// There was no memory. The writer holds its old text and a part of the term's from its beginning.
pub fn print_term(out: &mut Writer, letter: Letter, t: &Term) -> Result<(), AllocError>
    requires { FitsSomewhere t.now }
    ensures { Appends result out.old out.new (term_text (letter_code letter) t.now) }
{
    match t {
        Term::Const(c) => {
            out.number(u128::from(*c))?;
            Ok(())
        }
        Term::Field(i) => {
            out.word(&[letter.code()])?;
            out.number(u128::from(*i))?;
            Ok(())
        }
        Term::Node(op, arguments) => {
            out.word(b"(")?;
            out.word(op_name(*op))?;
            'arguments: for argument in arguments.as_slice() {
                out.space()?;
                print_term(out, letter, argument)?;
            }
            out.word(b")")?;
            Ok(())
        }
    }
}
