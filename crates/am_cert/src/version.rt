//! The versions of certificates.

ghost use Rattle.std.specs.Prelude.{◌≡◌};
ghost use Rattle.am_cert.specs.Versions.{has_hints, with_hints};

/// In which form the formulas of a certificate are, and what refutes them.
#[derive(Clone, Copy, PartialEq, Eq, Debug)]
pub enum Version {
    /// Each gate is made, and chains refute.
    One,
    /// Gates over constants are folded, and chains refute.
    Two,
    /// Each gate is made, and hints refute.
    Three,
    /// Gates over constants are folded, and hints refute.
    Four,
}

impl Version {
    /// Whether hints refute the formulas.
    pub fn has_hints(self) -> bool
        ensures { result ≡ has_hints self }
    {
        match self {
            Version::One | Version::Two => false,
            Version::Three | Version::Four => true,
        }
    }

    /// The version with hints, and with the same form of formulas.
    pub fn with_hints(self) -> Version
        ensures { result ≡ with_hints self }
    {
        match self {
            Version::One | Version::Three => Version::Three,
            Version::Two | Version::Four => Version::Four,
        }
    }
}
