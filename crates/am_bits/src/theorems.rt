//! What the bits of a congruence say of whole numbers, for the proofs of other crates. Each function
//! does nothing: its clauses are the laws, and a call brings them into the caller's proof.

ghost use Rattle.am_bits.specs.Theorems.{LowIsGreatest, LowIsMask, LowIsWithin, MembersLeaveResidue};

/// The members of a congruence are the words that leave its residue modulo m + 1.
pub fn members_leave_residue()
    ensures { MembersLeaveResidue }
{}

/// The low ones of a number are the greatest mask whose bits are all in it.
pub fn low_is_greatest_mask()
    ensures mask { LowIsMask }
    ensures within { LowIsWithin }
    ensures greatest { LowIsGreatest }
{}
