//! Widths, and what a width does to bytes and words.

ghost use Rattle.std.specs.Prelude.{◌≡◌, ◌+◌, ◌-◌, ◌%◌, ◌^◌, ◌<◌, ◌≤◌, SomeIff};
ghost use Rattle.am_bv.specs.Words.{IsWidth, signed};

use std::marker::Model;

/// The number of bits of a word, from 2 to 8. Contracts see the number.
#[derive(Clone, Copy, PartialEq, Eq, Debug)]
pub struct Width {
    bits: u32,
}

impl Model for Width {
    ghost use Rattle.std.specs.Prelude.{ℕ};
    ghost use Rattle.am_bv.specs.Words.{IsWidth};

    ghost Value = { ℕ };

    ghost view = { λ w. w.bits };

    ghost invariant = { λ w. IsWidth w.bits };

    ghost inverse = { λ n. record { bits = n } };
}

impl Width {
    /// The width of `n` bits, or None where `n` isn't from 2 to 8.
    pub fn new(n: u32) -> Option<Width>
        ensures { SomeIff result (IsWidth n) n }
    {
        if n < 2 || n > 8 {
            None
        } else {
            Some(Width { bits: n })
        }
    }

    /// The number of bits.
    pub fn bits(self) -> u32
        ensures value { result ≡ self }
        ensures width { IsWidth result }
    {
        self.bits
    }

    /// The word whose bits are all set.
    pub fn mask(self) -> u8
        ensures value { result ≡ 2 ^ self - 1 }
        ensures least { 3 ≤ result }
    {
        0xff >> (8 - self.bits)
    }

    /// The low bits of a byte, as many as a word has.
    pub fn truncate(self, byte: u8) -> u8
        ensures value { result ≡ byte % 2 ^ self }
        ensures word { result < 2 ^ self }
    {
        byte & self.mask()
    }

    /// The difference modulo 2^w.
    pub fn difference(self, c: u8, d: u8) -> u8
        requires { d < 2 ^ self }
        ensures value { result ≡ (c + (2 ^ self - d)) % 2 ^ self }
        ensures word { result < 2 ^ self }
    {
        c.wrapping_sub(d) & self.mask()
    }

    /// The number that a word stands for in two's complement.
    pub fn signed(self, c: u8) -> i16
        requires { c < 2 ^ self }
        ensures { result ≡ signed self c }
    {
        if c > self.mask() >> 1 {
            i16::from(c) - i16::from(self.mask()) - 1
        } else {
            i16::from(c)
        }
    }
}
