//! The top call.

ghost use Rattle.std.specs.Prelude.{◌≡◌, ◌≢◌, ℕ, ◌+◌, ◌-◌, ◌<◌, ◌≤◌, ◌^◌, ◌↔◌, List, length};
ghost use Rattle.std.specs.Io.KnownBytes.{Appends};
ghost use Rattle.am_cert.specs.declared.limits.TheConstants.{MOST_BYTES};
ghost use Rattle.am_io.specs.Streams.{AppendsPrefix, LosesAtMost};
ghost use Rattle.amurth.specs.Command.{IsCommand};
ghost use Rattle.amurth.specs.Run.{Calls, HasRead, IsDueSomehow, IsDueTo, IsSilent, IsToldStatus};
ghost use Rattle.amurth.specs.declared.command.Command.{Command as Named};
ghost use Rattle.amurth.specs.declared.command.Command.TheVariants.{Make};

use crate::answering::answer;
use crate::command::CommandWords;
use crate::lines::long_line;
use crate::status::Status;
use am_io::{ReadEnd, Sink, Source, write_all};
use std::alloc::Global;

/// Runs a command on an input, and writes its whole output or, after a fault of the sink, a prefix.
///
/// With the word `synth` or `list` the input is a problem, with `check` or `translate` a certificate, with `analyse`
/// certificates and a flow. With `make` and a number nothing is read.
pub fn run<R: Source, W: Sink>(
    alloc: Global,
    words: &CommandWords,
    input: &mut R,
    output: &mut W,
) -> Status
    requires source { R.faults input.old < 2 ^ 64 - 1 }
    requires sink { W.faults output.old < 2 ^ 64 - 1 }

    // What was written is due to the input, and tells how the work ended. Each byte took one call of the sink at most,
    // and one more finished it or failed.
    ensures due { IsToldStatus result → Calls words.now (λ c. (text : List ℕ)
        × IsDueTo c (R.left input.old) result text
        × Appends (W.taken output.old) (W.taken output.new) text
        × (W.calls output.new ≤ W.calls output.old + length text + 1)) }

    // A fault of the sink leaves a prefix of what was due. All else leaves the whole or nothing.
    ensures part { result ≡ Status.WriteFault → Calls words.now (λ c. (text : List ℕ)
        × IsDueSomehow c (R.left input.old) text
        × AppendsPrefix (W.taken output.old) (W.taken output.new) text
        × (W.calls output.new ≤ W.calls output.old + length text + 1)) }
    ensures silent { IsSilent result → output.new ≡ output.old }

    // After a whole text the sink was finished, and it is finished once at most.
    ensures finished { IsToldStatus result → W.finished output.new }
    ensures once { W.finishes output.new ≤ W.finishes output.old + 1 }

    // Where the work is done, the input was read to its end. A made problem has no input.
    ensures end { result ≡ Status.Done → Calls words.now (λ c. HasRead c (R.left input.new)) }
    ensures made { (n : ℕ) → IsCommand words.now (Make n) → input.new ≡ input.old }

    ensures usage { (result ≡ Status.Usage) ↔ ((c : Named) → ¬ IsCommand words.now c) }
    ensures unread { result ≡ Status.Usage → input.new ≡ input.old }

    // The counts of faults rose exactly where a fault is answered.
    ensures read { result ≡ Status.ReadFault → R.faults input.old < R.faults input.new }
    ensures well_read { result ≢ Status.ReadFault → R.faults input.new ≡ R.faults input.old }
    ensures write { result ≡ Status.WriteFault → W.faults output.old < W.faults output.new }
    ensures well_written { result ≢ Status.WriteFault → W.faults output.new ≡ W.faults output.old }

    // At most one byte more is read than an input may have, and then the answer isn't want of memory. The source is
    // called once for each byte that an input may have at most, and once more.
    ensures lost { LosesAtMost (R.left input.old) (R.left input.new) (MOST_BYTES + 1) }
    ensures short { IsSilent result → LosesAtMost (R.left input.old) (R.left input.new) MOST_BYTES }
    ensures calls { R.calls input.new ≤ R.calls input.old + MOST_BYTES + 1 }
{
    let Some(command) = words.command() else {
        return Status::Usage;
    };
    match answer(alloc, command, input) {
        Ok(response) => deliver(output, &response.text, response.status),
        Err(ReadEnd::Long) => deliver(output, long_line(), Status::Refused),
        Err(ReadEnd::ReadFault) => Status::ReadFault,
        Err(ReadEnd::NoMemory) => Status::NoMemory,
    }
}

/// Writes a whole text, and answers the status that it has once it is written.
fn deliver<W: Sink>(output: &mut W, text: &[u8], status: Status) -> Status
    requires sink { W.faults output.old < 2 ^ 64 - 1 }
    requires told { IsToldStatus status }
    ensures status { result ≢ Status.WriteFault → result ≡ status }
    ensures whole { result ≢ Status.WriteFault →
        Appends (W.taken output.old) (W.taken output.new) text.now }
    ensures well_written { result ≢ Status.WriteFault → W.faults output.new ≡ W.faults output.old }
    ensures finished { result ≢ Status.WriteFault → W.finished output.new }
    ensures part { result ≡ Status.WriteFault →
        AppendsPrefix (W.taken output.old) (W.taken output.new) text.now }
    ensures write { result ≡ Status.WriteFault → W.faults output.old < W.faults output.new }
    ensures calls { W.calls output.new ≤ W.calls output.old + length text.now + 1 }
    ensures once { W.finishes output.new ≤ W.finishes output.old + 1 }
{
    match write_all(output, text) {
        Ok(()) => status,
        Err(_) => Status::WriteFault,
    }
}
