//! Writing a whole text to a sink.

ghost use Rattle.std.specs.Prelude.{◌≡◌, ◌+◌, ◌-◌, ◌<◌, ◌≤◌, ◌^◌, OnOk, length};
ghost use Rattle.std.specs.Io.KnownBytes.{Appends};
ghost use Rattle.am_io.specs.Streams.{AppendsPrefix, FailsByCount};

use crate::streams::{Failed, Sink};

/// A sink failed while a text was written.
#[derive(Clone, Copy, PartialEq, Eq, Debug)]
pub enum WriteFault {
    WriteFault,
}

impl From<Failed> for WriteFault {
    fn from(_failed: Failed) -> WriteFault {
        WriteFault::WriteFault
    }
}

/// Hands a whole text to a sink and finishes it. Each `put` gets all bytes that are not taken yet.
/// It takes no memory.
///
/// # Errors
///
/// `WriteFault`: the sink failed. It has taken a prefix of the text.
pub fn write_all<W: Sink>(sink: &mut W, bytes: &[u8]) -> Result<(), WriteFault>
    requires { W.faults sink.old < 2 ^ 64 - 1 }
    ensures ok { OnOk result (Appends (W.taken sink.old) (W.taken sink.new) bytes.now) }
    ensures prefix { AppendsPrefix (W.taken sink.old) (W.taken sink.new) bytes.now }
    ensures finished { OnOk result (W.finished sink.new) }
    ensures cause { FailsByCount (W.faults sink.old) (W.faults sink.new) result }

    // At most one call for each byte, and the one `finish`.
    ensures calls { W.calls sink.new ≤ W.calls sink.old + length bytes.now + 1 }
    ensures once { W.finishes sink.new ≤ W.finishes sink.old + 1 }
{
    let mut done = 0;
    while done < bytes.len() {
        done += sink.put(&bytes[done..])?;
    }
    sink.finish()?;
    Ok(())
}
