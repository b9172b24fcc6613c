//! Domains whose values are walks from their first field to their second.

ghost use Rattle.am_domain.specs.AnchoredLaws.{IsAnchored};

use crate::domain::Domain;

/// A domain with two fields whose values have the words from field 0 upwards by 1, modulo 2^w, to
/// field 1. It adds laws alone, and no methods.
pub trait Anchored: Domain {
    /// All laws of such a domain hold.
    ghost is_anchored: { (d : Self) → IsAnchored (Self.abstraction d) };
}
