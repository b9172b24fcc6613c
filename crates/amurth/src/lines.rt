//! The lines of refusals and of faults.

ghost use Rattle.std.specs.Prelude.{◌≡◌, [], ◌∷◌, ◌++◌, IfOk, IsTrue, codes, decimal, map};
ghost use Rattle.am_syntax.specs.Canonical.{line};
ghost use Rattle.am_query.specs.declared.fault.Fault.TheVariants.{BadChain, Unfinished};
ghost use Rattle.am_syntax.specs.Lines.{is_apart};
ghost use Rattle.am_syntax.specs.declared.refusal.Refusal.TheVariants.{Long};
ghost use Rattle.amurth.specs.Lines.{fault_line, hint_why_word, refusal_line, refused, why_word};

use am_cert::MOST_BYTES;
use am_chain::Why;
use am_hint::HintWhy;
use am_query::Fault;
use am_syntax::{Entry, Refusal, print_line};
use am_text::Writer;
use std::alloc::{AllocError, Global};

/// The line of a refusal.
pub fn refusal_line(alloc: Global, refusal: Refusal) -> Result<Vec<u8>, AllocError>
    ensures { IfOk result (λ line. line.items ≡ refusal_line refusal) }
{
    match refusal {
        Refusal::BadByte(at) => refused(alloc, b"BadByte", at as u64),
        Refusal::Syntax(at) => refused(alloc, b"Syntax", at as u64),
        Refusal::Number(at) => refused(alloc, b"Number", at as u64),
        Refusal::Name(at) => refused(alloc, b"Name", at as u64),
        Refusal::Count(at) => refused(alloc, b"Count", at as u64),
        Refusal::Twice(at) => refused(alloc, b"Twice", at as u64),
        Refusal::Undefined(at) => refused(alloc, b"Undefined", at as u64),
        Refusal::Slots(n) => refused(alloc, b"Slots", n),
        Refusal::Load(n) => refused(alloc, b"Load", n),
        Refusal::Mismatch(n) => refused(alloc, b"Mismatch", u64::from(n)),
        Refusal::Long => refused(alloc, b"Long", MOST_BYTES as u64),
        Refusal::Wide(n) => refused(alloc, b"Wide", n),
        Refusal::Many(n) => refused(alloc, b"Many", n),
    }
}

/// The line of the refusal of an input that is too long, which takes no memory.
pub fn long_line() -> &'static [u8]
    ensures { result.now ≡ refusal_line Long }
{
    b"refused Long 67108864\n"
}

/// The word `refused`, a name and a number.
fn refused(alloc: Global, name: &[u8], n: u64) -> Result<Vec<u8>, AllocError>
    requires { IsTrue (is_apart name.now) }
    ensures { IfOk result (λ line. line.items ≡ refused name.now n) }
{
    let mut out = Writer::new(alloc);
    print_line(&mut out, b"refused", &[Entry::Word(name), Entry::Number(n)])?;
    Ok(out.finish())
}

/// The line of a fault, after the number of its certificate where there are several.
pub fn fault_line(alloc: Global, numbers: &[u32], fault: Fault) -> Result<Vec<u8>, AllocError>
    ensures { IfOk result (λ line. line.items ≡ fault_line (map decimal numbers.now) fault) }
{
    match fault {
        Fault::Unfinished => unfinished(alloc, numbers),
        Fault::TermOutside(i) => rejected(alloc, numbers, b"TermOutside", i),
        Fault::PositiveFalse(i) => rejected(alloc, numbers, b"PositiveFalse", i),
        Fault::NegativeFalse(i) => rejected(alloc, numbers, b"NegativeFalse", i),
        Fault::BadChain {
            refutation,
            chain,
            step,
            why,
        } => within(
            alloc,
            numbers,
            b"BadChain",
            &[refutation, chain, step],
            why_word(why),
        ),
        Fault::BadHint {
            refutation,
            clause,
            hint,
            why,
        } => within(
            alloc,
            numbers,
            b"BadHint",
            &[refutation, clause, hint],
            hint_why_word(why),
        ),
        Fault::NotEmpty(j) => rejected(alloc, numbers, b"NotEmpty", j),
    }
}

/// The line of a certificate that says nothing of transformers.
fn unfinished(alloc: Global, numbers: &[u32]) -> Result<Vec<u8>, AllocError>
    ensures { IfOk result (λ line. line.items ≡ fault_line (map decimal numbers.now) Unfinished) }
{
    let mut out = Writer::new(alloc);
    let entries = [Entry::Numbers(numbers), Entry::Word(b"Unfinished")];
    print_line(&mut out, b"rejected", &entries)?;
    Ok(out.finish())
}

/// The word `rejected`, the certificate's number, a fault's name and its number.
fn rejected<'a>(
    alloc: Global,
    numbers: &'a [u32],
    name: &'a [u8],
    n: u32,
) -> Result<Vec<u8>, AllocError>
    requires { IsTrue (is_apart name.now) }
    ensures { IfOk result (λ text. text.items ≡
        line (codes "rejected" ∷ (map decimal numbers.now ++ name.now ∷ decimal n ∷ []))) }
{
    let mut out = Writer::new(alloc);
    let entries = [
        Entry::Numbers(numbers),
        Entry::Word(name),
        Entry::Number(u64::from(n)),
    ];
    print_line(&mut out, b"rejected", &entries)?;
    Ok(out.finish())
}

/// The line of a fault in a refutation: its name, where it is, and its cause.
fn within<'a>(
    alloc: Global,
    numbers: &'a [u32],
    name: &'a [u8],
    places: &'a [u32],
    cause: &'a [u8],
) -> Result<Vec<u8>, AllocError>
    requires name { IsTrue (is_apart name.now) }
    requires cause { IsTrue (is_apart cause.now) }
    ensures { IfOk result (λ text. text.items ≡ line (codes "rejected" ∷
        (map decimal numbers.now ++ name.now ∷ (map decimal places.now ++ cause.now ∷ [])))) }
{
    let mut out = Writer::new(alloc);
    let entries = [
        Entry::Numbers(numbers),
        Entry::Word(name),
        Entry::Numbers(places),
        Entry::Word(cause),
    ];
    print_line(&mut out, b"rejected", &entries)?;
    Ok(out.finish())
}

/// The name of a chain's cause.
fn why_word(why: Why) -> &'static [u8]
    ensures word { result.now ≡ why_word why }
    ensures apart { IsTrue (is_apart result.now) }
{
    match why {
        Why::NoClause => b"NoClause",
        Why::NoPivot => b"NoPivot",
    }
}

/// The name of a hint's cause.
fn hint_why_word(why: HintWhy) -> &'static [u8]
    ensures word { result.now ≡ hint_why_word why }
    ensures apart { IsTrue (is_apart result.now) }
{
    match why {
        HintWhy::NotNormal => b"NotNormal",
        HintWhy::NoClause => b"NoClause",
        HintWhy::NotUnit => b"NotUnit",
        HintWhy::NoConflict => b"NoConflict",
    }
}
