//! The words of a command line, and the commands that they call for.

ghost use Rattle.std.specs.Prelude.{◌≡◌, ◌≢◌, ◌<◌, ◌≤◌, ℕ, [], ◌∷◌, ◌++◌, decimal, length, map, drop, slice_get};
ghost use Rattle.std.specs.Prelude.{IfOk, MatchOption, OnErr, OnOk, string_bytes};
ghost use Rattle.am_problem.specs.declared.generator.TheConstants.{LAST_PROBLEM};
ghost use Rattle.amurth.specs.Command.{IsCommand};
ghost use Rattle.amurth.specs.declared.command.Command.{Command as Named};

use am_problem::LAST_PROBLEM;
use am_syntax::{End, Judge, Number};
use std::alloc::{AllocError, Global};
use std::marker::Model;

/// What a run is asked to do.
#[derive(Clone, Copy, PartialEq, Eq, Debug)]
pub enum Command {
    /// Synthesise a best transformer of a problem, and write its certificate.
    Synth,
    /// Check a certificate.
    Check,
    /// Write a certificate with hints in place of its chains.
    Translate,
    /// Check certificates, and analyse a flow with their transformers.
    Analyse,
    /// Write all tuples of trees of a small problem whose terms are best.
    List,
    /// Synthesise a best transformer of the problem with this number, and write a summary.
    Make(u32),
}

/// The words of a command line, without the program's name.
#[derive(Drop)]
pub struct CommandWords {
    words: Vec<Vec<u8>>,
    alloc: Global,
}

impl Model for CommandWords {
    ghost use Rattle.std.specs.Prelude.{List, ℕ, map};

    ghost Value = { List (List ℕ) };

    ghost view = { λ w. map (λ word. word.items) w.words.items };
}

impl CommandWords {
    pub fn new(alloc: Global) -> CommandWords
        ensures { result ≡ [] }
    {
        CommandWords {
            words: Vec::new(alloc),
            alloc,
        }
    }

    /// Appends a copy of the word.
    pub fn push(&mut self, word: &[u8]) -> Result<(), AllocError>
        ensures ok { OnOk result (self.new ≡ self.old ++ word.now ∷ []) }
        ensures err { OnErr result (self.new ≡ self.old) }
    {
        let copy = word.to_vec(self.alloc)?;
        self.words.push(copy)?;
        Ok(())
    }

    pub fn len(&self) -> usize
        ensures { result ≡ length self.now }
    {
        self.words.len()
    }

    pub fn get(&self, i: usize) -> &[u8]
        requires { i < length self.now }
        ensures { slice_get self.now i ≡ Some result.now }
    {
        &self.words[i]
    }

    /// The command that the words call for.
    pub fn command(&self) -> Option<Command>
        ensures { MatchOption result ((c : Named) → ¬ IsCommand self.now c) (IsCommand self.now) }
    {
        match self.len() {
            1 => named(self.get(0)),
            2 => numbered(self.get(0), self.get(1)),
            _ => None,
        }
    }
}

/// The command that one word calls for.
fn named(word: &[u8]) -> Option<Command>
    ensures { let words = word.now ∷ [] in
        MatchOption result ((c : Named) → ¬ IsCommand words c) (IsCommand words) }
{
    if word == b"synth".as_slice() {
        return Some(Command::Synth);
    }
    if word == b"check".as_slice() {
        return Some(Command::Check);
    }
    if word == b"translate".as_slice() {
        return Some(Command::Translate);
    }
    if word == b"analyse".as_slice() {
        return Some(Command::Analyse);
    }
    if word == b"list".as_slice() {
        return Some(Command::List);
    }
    None
}

/// The command that a word and a number call for.
fn numbered(word: &[u8], number: &[u8]) -> Option<Command>
    ensures { let words = word.now ∷ number.now ∷ [] in
        MatchOption result ((c : Named) → ¬ IsCommand words c) (IsCommand words) }
{
    if word != b"make".as_slice() {
        return None;
    }
    match problem_number(number) {
        Some(number) => Some(Command::Make(number)),
        None => None,
    }
}

/// The number of a made problem, from its decimal digits without leading zeros.
fn problem_number(digits: &[u8]) -> Option<u32>
    ensures { MatchOption result ((n : ℕ) → n ≤ LAST_PROBLEM → digits.now ≢ decimal n)
        (λ n. (digits.now ≡ decimal n) × (n ≤ LAST_PROBLEM)) }
{
    let numbers = Number {
        least: 0,
        end: End::With(u64::from(LAST_PROBLEM)),
    };
    match numbers.judge(digits) {
        Ok(number) => Some(number as u32),
        Err(_) => None,
    }
}

/// The words of a command line: all arguments but the first, which is the program's name, in order.
pub fn command_words(alloc: Global, arguments: &[String]) -> Result<CommandWords, AllocError>
    ensures { IfOk result (λ words. words ≡ map string_bytes (drop 1 arguments.now)) }
{
    match arguments {
        [] => Ok(CommandWords::new(alloc)),
        [_, words @ ..] => copies_of(alloc, words),
    }
}

fn copies_of(alloc: Global, arguments: &[String]) -> Result<CommandWords, AllocError>
    ensures { IfOk result (λ words. words ≡ map string_bytes arguments.now) }
{
    let mut words = CommandWords::new(alloc);
    for argument in arguments {
        words.push(argument.as_bytes())?;
    }
    Ok(words)
}
