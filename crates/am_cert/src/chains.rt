//! Chains and logs.

ghost use Rattle.std.specs.Prelude.{◌≡◌, codes};
ghost use Rattle.am_syntax.specs.Pieces.{is_number_next, next_is, repeat};
ghost use Rattle.am_syntax.specs.Readers.{GivesRead, Makes};
ghost use Rattle.am_cert.specs.Grammar.{chain, code, log, step};

use am_chain::{Chain, Log, Step, Steps};
use am_syntax::{Cause, Failure, is_next, is_number_next, take_key, take_number};
use am_text::Cursor;
use std::alloc::Global;

/// The number of a variable or of a clause, or the code of a literal.
pub(crate) fn take_code(text: &mut Cursor<'_>) -> Result<u32, Cause>
    ensures { GivesRead (λ n. n) result text.old text.new code.read }
{
    Ok(take_number(text, 0, u64::from(u32::MAX))? as u32)
}

/// A variable and a clause.
fn read_step(text: &mut Cursor<'_>) -> Result<Step, Cause>
    ensures { GivesRead (λ x. x) result text.old text.new step.read }
{
    let variable = take_code(text)?;
    let clause = take_code(text)?;
    Ok(Step { variable, clause })
}

/// Steps as long as one comes.
fn read_steps(alloc: Global, text: &mut Cursor<'_>) -> Result<Steps, Failure>
    ensures { Makes (λ xs. xs) result text.old text.new (repeat is_number_next (λ _. step)).read }
{
    let mut steps = Steps::new(alloc);
    'steps: while is_number_next(text) {
        steps.push(read_step(text)?)?;
    }
    Ok(steps)
}

/// `chain`, its first clause and its steps.
#[tactic(auto, unfolding(crate::specs::Grammar::chain))]
fn read_chain(alloc: Global, text: &mut Cursor<'_>) -> Result<Chain, Failure>
    ensures { Makes (λ c. c) result text.old text.new chain.read }
{
    take_key(text, b"chain")?;
    let first = take_code(text)?;
    let steps = read_steps(alloc, text)?;
    Ok(Chain { first, steps })
}

/// Chains as long as one comes.
fn read_chains(alloc: Global, text: &mut Cursor<'_>) -> Result<Log, Failure>
    ensures { Makes (λ cs. cs) result text.old text.new (repeat (next_is (codes "chain")) (λ _. chain)).read }
{
    let mut log = Log::new(alloc);
    'chains: while is_next(text, b"chain") {
        log.push(read_chain(alloc, text)?)?;
    }
    Ok(log)
}

/// `log`, its name and its chains.
#[tactic(auto, unfolding(crate::specs::Grammar::log))]
pub(crate) fn read_log(alloc: Global, text: &mut Cursor<'_>, name: &[u8]) -> Result<Log, Failure>
    ensures { Makes (λ cs. cs) result text.old text.new (log name.now).read }
{
    take_key(text, b"log")?;
    take_key(text, name)?;
    read_chains(alloc, text)
}
