//! Logs without the chains that their last one doesn't need.

ghost use Rattle.std.specs.Prelude.{◌≡◌, ℕ, ◌+◌, ◌-◌, ◌^◌, ◌<◌, ◌≤◌, ◌↔◌, ◌⊎◌, List, length, slice_get, slice_index};
ghost use Rattle.std.specs.Prelude.{Some, IsTrue, IfOk, if◌then◌else◌, nat_lt};
ghost use Rattle.am_chain.specs.declared.chain.Chain.{Chain};
ghost use Rattle.am_chain.specs.Replay.{Refutes};
ghost use Rattle.am_chain.specs.Trimmed.{AreNeeded, IsTrimmed, Names, kept_below, kept_chains, moved_chain};
ghost use Rattle.am_chain.specs.Trimmed.{moved_number};
ghost use Rattle.am_chain.specs.inside.Marks.{mark_at};
ghost use Rattle.am_chain.specs.inside.Numbers.{AreNeededFrom, NamesBelow, renumbered};

use crate::chain::{Chain, Log, Step, Steps};
use am_lit::Formula;
use std::alloc::{AllocError, Global};

/// Of a log that refutes the formula, the chains that its last chain needs, in order and with their
/// numbers moved. They refute the formula too.
pub fn trimmed(alloc: Global, formula: &Formula, log: &Log) -> Result<Log, AllocError>
    requires refutes { Refutes formula.now.clauses log.now }
    requires numbers { length formula.now.clauses + length log.now < 2 ^ 32 }
    ensures refutes { IfOk result (λ kept. Refutes formula.now.clauses kept) }
    ensures fewer { IfOk result (λ kept. length kept ≤ length log.now) }
    ensures needed { IfOk result (λ kept. IsTrimmed (length formula.now.clauses) log.now kept) }
{
    let given = formula.clauses.len();
    let needed = needed_chains(alloc, given, log)?;
    let before = counts_before(alloc, needed.as_slice())?;
    let kept = kept_of(alloc, given, needed.as_slice(), before.as_slice(), log)?;
    Ok(kept)
}

/// For each chain of a log, whether the last one needs it.
fn needed_chains(alloc: Global, given: u32, log: &Log) -> Result<Vec<bool>, AllocError>
    requires { NamesBelow given log.now }
    ensures len { IfOk result (λ needed. length needed.items ≡ length log.now) }
    ensures needed { IfOk result (λ needed. AreNeeded given log.now (mark_at needed.items)) }
{
    let mut needed = last_alone(alloc, log.len())?;
    let mut k = log.len();
    while k > 0 {
        k -= 1;
        pass_on(log, k, given, needed.as_mut_slice());
    }
    Ok(needed)
}

/// Marks the chains that this one names, if it is marked.
fn pass_on(log: &Log, k: usize, given: u32, needed: &mut [bool])
    requires names { NamesBelow given log.now }
    requires in_range { k < length log.now }
    requires len { length needed.old ≡ length log.now }
    requires needed { AreNeededFrom (k + 1) given log.now (mark_at needed.old) }
    ensures { AreNeededFrom k given log.now (mark_at needed.new) }
{
    if !needed[k] {
        return;
    }
    need_named(log.get(k), given, needed);
}

/// So many marks, of which only the last one is set.
fn last_alone(alloc: Global, len: usize) -> Result<Vec<bool>, AllocError>
    ensures len { IfOk result (λ marks. length marks.items ≡ len) }
    ensures last { IfOk result (λ marks. (k : ℕ) → IsTrue (mark_at marks.items k) ↔ (k + 1 ≡ len)) }
{
    let mut marks = Vec::new(alloc);
    for k in 0..len {
        marks.push(k + 1 == len)?;
    }
    Ok(marks)
}

/// Marks the chains that a chain names.
fn need_named(chain: &Chain, given: u32, needed: &mut [bool])
    ensures { (k : ℕ) → IsTrue (mark_at needed.new k)
        ↔ (IsTrue (mark_at needed.old k) ⊎ ((k < length needed.old) × Names chain.now (given + k))) }
{
    need(chain.first, given, needed);
    for step in chain.steps.as_slice() {
        need(step.clause, given, needed);
    }
}

/// Marks the chain whose clause has this number, if a chain's clause has it.
fn need(number: u32, given: u32, needed: &mut [bool])
    ensures { (k : ℕ) → IsTrue (mark_at needed.new k)
        ↔ (IsTrue (mark_at needed.old k) ⊎ ((k < length needed.old) × (number ≡ given + k))) }
{
    if number < given {
        return;
    }
    let place = (number - given) as usize;
    if place >= needed.len() {
        return;
    }
    needed[place] = true;
}

/// For each chain, how many chains before it are kept.
fn counts_before(alloc: Global, needed: &[bool]) -> Result<Vec<u32>, AllocError>
    requires { length needed.now < 2 ^ 32 }
    ensures len { IfOk result (λ before. length before.items ≡ length needed.now) }
    ensures counts { IfOk result (λ before. (k : ℕ) → k < length needed.now
        → slice_index before.items k ≡ kept_below (mark_at needed.now) k) }
{
    let mut before = Vec::new(alloc);
    let mut count = 0;
    for is_needed in needed {
        before.push(count)?;
        count += u32::from(*is_needed);
    }
    Ok(before)
}

/// The kept chains of a log, with their numbers moved.
fn kept_of(
    alloc: Global,
    given: u32,
    needed: &[bool],
    before: &[u32],
    log: &Log,
) -> Result<Log, AllocError>
    requires names { NamesBelow given log.now }
    requires numbers { given + length log.now < 2 ^ 32 }
    requires needed_len { length needed.now ≡ length log.now }
    requires before_len { length before.now ≡ length log.now }
    requires counts { (k : ℕ) → k < length needed.now
        → slice_index before.now k ≡ kept_below (mark_at needed.now) k }
    ensures { let keeps = mark_at needed.now in
        IfOk result (λ kept. kept ≡ kept_chains (moved_number given keeps) keeps 0 log.now) }
{
    let mut kept = Log::new(alloc);
    for k in 0..needed.len() {
        if !needed[k] {
            continue;
        }
        let chain = renumbered_chain(alloc, given, before, log.get(k))?;
        kept.push(chain)?;
    }
    Ok(kept)
}

/// A chain with its numbers moved.
fn renumbered_chain(
    alloc: Global,
    given: u32,
    before: &[u32],
    chain: &Chain,
) -> Result<Chain, AllocError>
    requires numbers { given + length before.now < 2 ^ 32 }
    requires below { (k : ℕ) → k < length before.now → slice_index before.now k ≤ k }
    requires names { (n : ℕ) → Names chain.now n → n < given + length before.now }
    ensures { IfOk result (λ moved. moved ≡ moved_chain (renumbered given before.now) chain.now) }
{
    let first = renumber(chain.first, given, before);
    let mut steps = Steps::new(alloc);
    for step in chain.steps.as_slice() {
        steps.push(Step {
            variable: step.variable,
            clause: renumber(step.clause, given, before),
        })?;
    }
    Ok(Chain { first, steps })
}

fn renumber(number: u32, given: u32, before: &[u32]) -> u32
    requires numbers { given + length before.now < 2 ^ 32 }
    requires below { (k : ℕ) → k < length before.now → slice_index before.now k ≤ k }
    requires in_range { number < given + length before.now }
    ensures { result ≡ renumbered given before.now number }
{
    if number < given {
        return number;
    }
    let place = (number - given) as usize;
    given + before[place]
}
