//! What operations are over, and whether they fit into a flow.

ghost use Rattle.std.specs.Prelude.{◌≡◌, ℕ, ◌<◌, ◌^◌, ◌↔◌, IfErr, IsTrue, OnOk, length};
ghost use Rattle.am_syntax.specs.declared.refusal.Refusal.TheVariants.{Mismatch};

use crate::flow::{Action, Flow};
use am_bv::Width;
use am_problem::Kind;
use am_syntax::Refusal;

/// What an operation is over, and whether a best transformer of it is known.
#[derive(Clone, Copy)]
pub struct Signature {
    /// The number of bits of its words.
    pub width: Width,
    /// How many inputs it has.
    pub inputs: u32,
    /// The abstract domain.
    pub kind: Kind,
    /// Whether its transformer is best.
    pub best: bool,
}

impl Signature {
    ghost use Rattle.am_flow.specs.Flows.{Fits};

    /// Whether the operation with this number, of this signature, fits into a flow.
    fn fits(&self, flow: &Flow, operation: u32) -> bool
        ensures { IsTrue result ↔ Fits flow.now operation self.now }
    {
        self.best
            && self.width == flow.width()
            && self.kind == flow.kind()
            && flow
                .edges()
                .iter()
                .all(|edge| edge.action.applies_to(operation, self.inputs))
    }
}

impl Action {
    ghost use Rattle.am_flow.specs.Flows.{AppliesTo};

    /// Whether it applies no operation with this number, or applies it to so many variables.
    fn applies_to(&self, number: u32, inputs: u32) -> bool
        ensures { IsTrue result ↔ AppliesTo number inputs self.now }
    {
        match self {
            Action::Apply {
                operation,
                from,
                ..
            } => *operation != number || from.len() == inputs as usize,
            _ => true,
        }
    }
}

impl Flow {
    ghost use Rattle.am_flow.specs.Flows.{AllFit, IsFirstMisfit};

    /// Whether all operations fit: each has a best transformer, over the flow's words and domain, and each edge applies
    /// it to as many variables as it has inputs. It takes no memory.
    ///
    /// # Errors
    ///
    /// `Mismatch`, with the number of the first operation that doesn't fit.
    pub fn matches(&self, signatures: &[Signature]) -> Result<(), Refusal>
        requires { length signatures.now < 2 ^ 32 }
        ensures fit { OnOk result (AllFit self.now signatures.now) }
        ensures first { IfErr result (λ r. (i : ℕ) × (r ≡ Mismatch i)
            × IsFirstMisfit self.now signatures.now i) }
    {
        'signatures: for (i, signature) in signatures.iter().enumerate() {
            if !signature.fits(self, i as u32) {
                return Err(Refusal::Mismatch(i as u32));
            }
        }
        Ok(())
    }
}
