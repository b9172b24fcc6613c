//! A cursor over the tokens of a text.

ghost use Rattle.std.specs.Prelude.{◌≡◌, ◌≢◌, ◌∷◌, [], IfNone, IfSome, IfErr, OnErr, OnOk, Some, option_map};
ghost use Rattle.am_text.specs.Tokens.{Left, first, next_place, rest, words};
ghost use Rattle.am_text.specs.Seen.{seen};

use crate::scan;
use crate::token::Token;
use crate::tokens::Tokens;
use std::marker::Model;

/// A place between the tokens of a text.
#[derive(Drop)]
pub struct Cursor<'a> {
    rest: &'a [u8],
    at: usize,
}

impl<'a> Model for Cursor<'a> {
    ghost use Rattle.am_text.specs.Tokens.{Left, left_code, tokens_at};
    ghost use Rattle.std.specs.Prelude.{length, ◌+◌, ◌<◌, ◌^◌};

    ghost Value = { Left };

    ghost coded = { left_code };

    ghost view = { λ c. record {
      tokens = tokens_at c.at c.rest.now;
      end = c.at + length c.rest.now;
    } };

    ghost invariant = { λ c. c.at + length c.rest.now < 2 ^ 64 };
}

impl<'a> Cursor<'a> {
    /// A cursor before the first token.
    pub fn new(tokens: Tokens<'a>) -> Cursor<'a>
        ensures { result ≡ tokens.entry }
    {
        Cursor {
            rest: tokens.text,
            at: 0,
        }
    }

    /// The next token, which stays, or `None` at the end.
    pub fn peek(&self) -> Option<Token<'a>>
        ensures token { option_map seen result ≡ first self.now.tokens }
        ensures word { option_map (λ t. t.text.now) result ≡ first (words self.now) }
        ensures end { IfNone result (self.now.tokens ≡ []) }
    {
        let (token, _) = scan::token_from(self.at, self.rest)?;
        Some(token)
    }

    /// Takes the next token, or gives `None` at the end.
    pub fn next(&mut self) -> Option<Token<'a>>
        ensures token { IfSome result (λ t.
            self.old ≡ record self.new { tokens = seen t ∷ self.new.tokens }) }
        ensures word { IfSome result (λ t. words self.old ≡ t.text.now ∷ words self.new) }
        ensures end { IfNone result (self.old.tokens ≡ []) }
        ensures stays { IfNone result (self.new ≡ self.old) }
    {
        let (token, rest) = scan::token_from(self.at, self.rest)?;
        self.at = token.at + token.text.len();
        self.rest = rest;
        Some(token)
    }

    /// The place of the next token, or of the end.
    pub fn place(&self) -> usize
        ensures { result ≡ next_place self.now }
    {
        match self.peek() {
            Some(token) => token.at,
            None => self.at + self.rest.len(),
        }
    }

    /// A second cursor at the same place, for looking ahead.
    pub fn fork(&self) -> Cursor<'a>
        ensures { result ≡ self.now }
    {
        Cursor {
            rest: self.rest,
            at: self.at,
        }
    }

    /// Takes this word.
    ///
    /// # Errors
    ///
    /// The place of the next token, where it is another, or of the end. The cursor stays.
    pub fn expect(&mut self, word: &[u8]) -> Result<(), usize>
        ensures word { OnOk result (words self.old ≡ word.now ∷ words self.new) }
        ensures rest { OnOk result (self.new ≡ record self.old { tokens = rest self.old.tokens }) }
        ensures other { OnErr result (first (words self.old) ≢ Some word.now) }
        ensures place { IfErr result (λ at. at ≡ next_place self.old) }
        ensures stays { OnErr result (self.new ≡ self.old) }
    {
        match self.peek() {
            Some(token) if token.text == word => {
                let _ = self.next();
                Ok(())
            }
            _ => Err(self.place()),
        }
    }
}
