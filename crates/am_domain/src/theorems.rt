//! What examples say of all transformers, for the proofs of other crates. The function does nothing:
//! its clauses are the laws, and a call brings them into the caller's proof.

ghost use Rattle.am_domain.specs.CentralLaw.{BetterExcludes, NoneBetters, NoneIsSound, SoundCovers};

/// A question of what a transformer has to do. The laws hold of every one, and the proof of a call may
/// pick it.
pub trait Asks {
    ghost use Rattle.am_domain.specs.Question.{Question};

    /// The question.
    ghost question: { Question };
}

/// The central law: where true examples can't be satisfied no transformer is sound, and where none
/// that satisfies the examples is closer, a sound one is best.
pub fn examples_decide<Q: Asks>()
    ensures covers { SoundCovers Q.question }
    ensures excludes { BetterExcludes Q.question }
    ensures sound { NoneIsSound Q.question }
    ensures best { NoneBetters Q.question }
{}
