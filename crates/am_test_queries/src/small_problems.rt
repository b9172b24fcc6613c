//! Small problems that several tests ask about.

/// The best transformer is `(not f1)`, `(not f0)`.
pub const COMPLEMENT: &str = "amurth 1 width 2 operation 1 (not x0) domain u-interval start L H
depth 1 turns 40 conflicts 100000 rule L (not f1) (not f0) 0 rule H (not f0) 3 end";

/// Two transformers are best.
pub const INCOMPARABLE: &str = "amurth 1 width 2 operation 1 x0 domain u-interval start L H
depth 1 turns 40 conflicts 100000 rule L (and f0 1) (and f0 2) rule H f1 end";

/// No transformer is sound.
pub const SWAPPED_ENDS: &str = "amurth 1 width 2 operation 1 x0 domain u-interval start L H
depth 1 turns 40 conflicts 100000 rule L f1 rule H f0 end";
