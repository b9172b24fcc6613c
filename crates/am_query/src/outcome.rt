//! How a synthesis ends.

use crate::asked::Asked;
use crate::turn::Trace;
use am_chain::Log;
use am_problem::Transformer;

/// How a synthesis ends. What it says holds where it is accepted, as `specs/Acceptance.antt` says.
#[derive(Drop)]
pub enum Outcome {
    /// That the transformer is best: one log is to refute that it isn't sound, and one that there is a closer one.
    Best {
        term: Transformer,
        trace: Trace,
        sound_log: Log,
        best_log: Log,
    },
    /// That no transformer is sound: the log is to refute that one satisfies the positive examples.
    Absent {
        trace: Trace,
        log: Log,
    },
    /// One turn more was made than may be spent.
    Turns {
        trace: Trace,
    },
    /// As many clauses were derived as may be spent, for the query that was asked after the turns.
    Conflicts {
        trace: Trace,
        asked: Asked,
        log: Log,
    },
}
