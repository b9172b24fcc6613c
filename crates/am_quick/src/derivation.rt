//! The chains of all clauses that were derived, kept flat.

use crate::rows::{NONE, at, mark_at, put, put_mark, short};
use am_chain::{Chain, Log, Step, Steps};
use std::alloc::{AllocError, Global};

/// A chain that isn't needed.
const UNUSED: u8 = 0;

/// A chain that is needed once, as the first clause of another one.
const FIRST_ONCE: u8 = 1;

/// A chain that is needed otherwise.
const USED: u8 = 2;

/// The first clause and the steps of each chain. A chain's number comes after those of the formula's clauses.
#[derive(Drop)]
pub struct Derivation {
    firsts: Vec<u32>,
    /// Where the steps of each chain start.
    starts: Vec<usize>,
    steps: Vec<Step>,
    /// How many clauses the formula has.
    given: u32,
}

impl Derivation {
    pub fn new(alloc: Global, given: u32) -> Derivation {
        Derivation {
            firsts: Vec::new(alloc),
            starts: Vec::new(alloc),
            steps: Vec::new(alloc),
            given,
        }
    }

    /// Begins a chain, and gives its number.
    pub fn begin(&mut self, first: u32) -> Result<u32, AllocError> {
        let number = self.given.wrapping_add(short(self.firsts.len()));
        self.firsts.push(first)?;
        self.starts.push(self.steps.len())?;
        Ok(number)
    }

    /// Adds a step to the last chain.
    #[inline(always)]
    pub fn step(&mut self, variable: u32, clause: u32) -> Result<(), AllocError> {
        self.steps.push(Step { variable, clause })?;
        Ok(())
    }

    /// Takes the last chain away.
    pub fn drop_last(&mut self) {
        let _first = self.firsts.pop();
        if let Some(start) = self.starts.pop() {
            self.steps.truncate(start);
        }
    }

    #[inline(always)]
    fn first_of(&self, k: usize) -> u32 {
        at(self.firsts.as_slice(), k)
    }

    /// The steps of a chain.
    fn steps_of(&self, k: usize) -> &[Step] {
        let steps = self.steps.as_slice();
        let start = start_at(self.starts.as_slice(), k, steps.len());
        let end = start_at(self.starts.as_slice(), k.wrapping_add(1), steps.len());
        if start <= end && end <= steps.len() {
            &steps[start..end]
        } else {
            &steps[..0]
        }
    }

    /// The chains that the last one needs, with their numbers moved. A chain that is needed only as the first clause
    /// of another one becomes part of that one, if it then has at most `most` steps.
    pub fn trimmed(&self, alloc: Global, most: usize) -> Result<Log, AllocError> {
        let uses = self.uses(alloc)?;
        let spliced = self.spliced(alloc, uses.as_slice(), most)?;
        let mut log = Log::new(alloc);
        let mut numbers = vec![in alloc; NONE; self.firsts.len()]?;
        let mut number = self.given;
        for k in 0..self.firsts.len() {
            if mark_at(uses.as_slice(), k) != UNUSED && mark_at(spliced.as_slice(), k) == 0 {
                let chain = self.chain(alloc, k, spliced.as_slice(), numbers.as_slice())?;
                log.push(chain)?;
                put(numbers.as_mut_slice(), k, number);
                number = number.wrapping_add(1);
            }
        }
        Ok(log)
    }

    /// How each chain is needed for the last one.
    fn uses(&self, alloc: Global) -> Result<Vec<u8>, AllocError> {
        let len = self.firsts.len();
        let mut uses = vec![in alloc; UNUSED; len]?;
        put_mark(uses.as_mut_slice(), len.wrapping_sub(1), USED);
        for k in (0..len).rev() {
            if mark_at(uses.as_slice(), k) != UNUSED {
                self.use_chain(k, uses.as_mut_slice());
            }
        }
        Ok(uses)
    }

    /// Notes the chains that one names.
    fn use_chain(&self, k: usize, uses: &mut [u8]) {
        let first = self.place(self.first_of(k));
        let mark = if mark_at(uses, first) == UNUSED {
            FIRST_ONCE
        } else {
            USED
        };
        put_mark(uses, first, mark);
        for step in self.steps_of(k) {
            put_mark(uses, self.place(step.clause), USED);
        }
    }

    /// Marks the chains that become part of the one that they are the first clause of.
    fn spliced(&self, alloc: Global, uses: &[u8], most: usize) -> Result<Vec<u8>, AllocError> {
        let mut spliced = vec![in alloc; 0u8; self.firsts.len()]?;
        let mut lengths = vec![in alloc; 0u32; self.firsts.len()]?;
        for k in 0..self.firsts.len() {
            let first = self.place(self.first_of(k));
            let own = short(self.steps_of(k).len());
            let whole = own.saturating_add(at(lengths.as_slice(), first));
            let joins = mark_at(uses, first) == FIRST_ONCE && whole as usize <= most;
            if joins && mark_at(uses, k) != UNUSED {
                put_mark(spliced.as_mut_slice(), first, 1);
                put(lengths.as_mut_slice(), k, whole);
            } else {
                put(lengths.as_mut_slice(), k, own);
            }
        }
        Ok(spliced)
    }

    /// The place of the chain with a number, or one past every end.
    #[inline(always)]
    fn place(&self, number: u32) -> usize {
        if number < self.given {
            usize::MAX
        } else {
            (number - self.given) as usize
        }
    }

    #[inline(always)]
    fn moved(&self, number: u32, numbers: &[u32]) -> u32 {
        if number < self.given {
            number
        } else {
            at(numbers, (number - self.given) as usize)
        }
    }

    /// The places of a chain and of those that are spliced before it, the last one first.
    fn parts(&self, alloc: Global, k: usize, spliced: &[u8]) -> Result<Vec<usize>, AllocError> {
        let mut parts = Vec::new(alloc);
        let mut part = k;
        for _ in 0..self.firsts.len() {
            parts.push(part)?;
            part = self.place(self.first_of(part));
            if mark_at(spliced, part) == 0 {
                break;
            }
        }
        Ok(parts)
    }

    /// A chain with those that are spliced before it.
    fn chain(
        &self,
        alloc: Global,
        k: usize,
        spliced: &[u8],
        numbers: &[u32],
    ) -> Result<Chain, AllocError> {
        let mut first = NONE;
        let mut steps = Steps::new(alloc);
        let mut parts = self.parts(alloc, k, spliced)?;
        parts.reverse();
        for part in parts.as_slice() {
            if first == NONE {
                first = self.moved(self.first_of(*part), numbers);
            }
            self.append_steps(&mut steps, *part, numbers)?;
        }
        Ok(Chain { first, steps })
    }

    /// Appends the steps of a chain.
    fn append_steps(&self, steps: &mut Steps, k: usize, numbers: &[u32]) -> Result<(), AllocError> {
        for step in self.steps_of(k) {
            steps.push(Step {
                variable: step.variable,
                clause: self.moved(step.clause, numbers),
            })?;
        }
        Ok(())
    }
}

fn start_at(row: &[usize], i: usize, otherwise: usize) -> usize {
    if i < row.len() { row[i] } else { otherwise }
}
