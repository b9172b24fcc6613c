//! What a command makes of an input.

ghost use Rattle.std.specs.Prelude.{◌≡◌, ◌≢◌, ℕ, ◌+◌, ◌-◌, ◌<◌, ◌≤◌, ◌^◌, IfOk, OnOk};
ghost use Rattle.am_cert.specs.declared.limits.TheConstants.{MOST_BYTES};
ghost use Rattle.am_io.specs.Streams.{LosesAtMost};
ghost use Rattle.am_syntax.specs.declared.refusal.Refusal.TheVariants.{Long};
ghost use Rattle.amurth.specs.Command.{IsNumberedCommand};
ghost use Rattle.amurth.specs.Lines.{refusal_line};
ghost use Rattle.amurth.specs.Run.{HasRead, IsDueTo};
ghost use Rattle.amurth.specs.declared.command.Command.TheVariants.{Make};
ghost use Rattle.amurth.specs.declared.status.Status.TheVariants.{Refused};

use crate::analysing::analysed;
use crate::checking::checked;
use crate::command::Command;
use crate::listing::listed;
use crate::making::made;
use crate::response::Response;
use crate::synthesising::synthesised;
use crate::translating::translated;
use am_cert::MOST_BYTES;
use am_io::{ReadEnd, Source, read_all};
use std::alloc::Global;

/// The response of a command to an input.
///
/// # Errors
///
/// - `ReadFault`: the source failed.
/// - `Long`: the source gave one byte more than an input may have.
/// - `NoMemory`: there was no memory.
pub fn answer<R: Source>(
    alloc: Global,
    command: Command,
    input: &mut R,
) -> Result<Response, ReadEnd>
    requires source { R.faults input.old < 2 ^ 64 - 1 }
    requires numbered { IsNumberedCommand command }

    // A response comes after an input that was read to its end, and is due to it.
    ensures due { IfOk result (λ r. IsDueTo command (R.left input.old) r.status r.text.items) }
    ensures end { OnOk result (HasRead command (R.left input.new)) }
    ensures made { (n : ℕ) → command ≡ Make n → input.new ≡ input.old }

    // What is due to an input that is too long depends on nothing else.
    ensures long { result ≡ Err ReadEnd.Long →
        IsDueTo command (R.left input.old) Refused (refusal_line Long) }

    // The count of faults rose exactly where the answer is `ReadFault`.
    ensures fault { result ≡ Err ReadEnd.ReadFault → R.faults input.old < R.faults input.new }
    ensures kept { result ≢ Err ReadEnd.ReadFault → R.faults input.new ≡ R.faults input.old }

    ensures lost { LosesAtMost (R.left input.old) (R.left input.new) (MOST_BYTES + 1) }
    ensures not_long { result ≢ Err ReadEnd.Long →
        LosesAtMost (R.left input.old) (R.left input.new) MOST_BYTES }
    ensures calls { R.calls input.new ≤ R.calls input.old + MOST_BYTES + 1 }
{
    match command {
        Command::Synth => Ok(synthesised(alloc, &read_all(alloc, input, MOST_BYTES)?)?),
        Command::Check => Ok(checked(alloc, &read_all(alloc, input, MOST_BYTES)?)?),
        Command::Translate => Ok(translated(alloc, &read_all(alloc, input, MOST_BYTES)?)?),
        Command::Analyse => Ok(analysed(alloc, &read_all(alloc, input, MOST_BYTES)?)?),
        Command::List => Ok(listed(alloc, &read_all(alloc, input, MOST_BYTES)?)?),
        Command::Make(number) => Ok(made(alloc, number)?),
    }
}
