//! Laws of reading and printing, in the words of `specs/Theorems.antt`.

ghost use Rattle.am_syntax.specs.Theorems.{NamesAreExact, NumbersAreExact, OperatorsAreExact};
ghost use Rattle.am_syntax.specs.Theorems.{PrintedTermsReadBack, TermTextsAreRefusedForGood};
ghost use Rattle.am_syntax.specs.Theorems.{TermTextsAreSettled, TermsAreExact, TextsHaveOneTerm};

/// Numerals, names and operators are read exactly where they are spelled.
pub fn tokens_are_exact()
    ensures numbers { NumbersAreExact }
    ensures names { NamesAreExact }
    ensures operators { OperatorsAreExact }
{}

/// Terms are read exactly where they are spelled. Each text is one term's or has a first refusal,
/// which stands whatever follows the refused token.
pub fn terms_are_exact()
    ensures exact { TermsAreExact }
    ensures settled { TermTextsAreSettled }
    ensures once { TextsHaveOneTerm }
    ensures for_good { TermTextsAreRefusedForGood }
{}

/// What was printed reads back.
pub fn printed_terms_read_back()
    ensures { PrintedTermsReadBack }
{}
