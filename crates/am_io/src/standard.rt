//! A source over any reader of std and a sink over any writer, such as the standard streams.

ghost use Rattle.std.specs.Prelude.{◌≡◌, ◌-◌, ◌<◌, ◌^◌};
ghost use Rattle.am_io.specs.inside.Counted.{CountsFaults};

use crate::streams::{Failed, Sink, Source};
use std::io::{self, Read, Write};
use std::marker::Model;

/// Passes on what a call of std answered, and counts an error as a fault.
fn counted<T>(answer: io::Result<T>, faults: &mut u64) -> Result<T, Failed>
    requires { faults.old < 2 ^ 64 - 1 }
    ensures { CountsFaults answer result faults.old faults.new }
{
    match answer {
        Ok(value) => Ok(value),
        Err(_) => {
            *faults += 1;
            Err(Failed::Failed)
        }
    }
}

/// A source over a reader of std. It has left what the reader has left, which standard input doesn't tell.
#[derive(Drop)]
pub struct StdSource<R: Read> {
    reader: R,
    faults: u64,
}

impl<R: Read> Model for StdSource<R> {
    ghost use Rattle.am_io.specs.Standard.{StreamState, stream_code};

    ghost Value = { StreamState };

    ghost coded = { stream_code };

    ghost view = { λ s. record { bytes = R.remaining s.reader; faults = s.faults } };
}

impl<R: Read> StdSource<R> {
    pub fn new(reader: R) -> StdSource<R>
        ensures { result ≡ record { bytes = R.remaining reader; faults = 0 } }
    {
        StdSource { reader, faults: 0 }
    }
}

impl<R: Read> Source for StdSource<R> {
    ghost left = { λ s. s.bytes };

    ghost faults = { λ s. s.faults };

    ghost calls = { λ _. 0 };

    fn take(&mut self, into: &mut [u8]) -> Result<usize, Failed> {
        counted(self.reader.read(into), &mut self.faults)
    }
}

/// A sink over a writer of std. It has taken what the writer holds, which standard output doesn't tell.
#[derive(Drop)]
pub struct StdSink<W: Write> {
    writer: W,
    faults: u64,
}

impl<W: Write> Model for StdSink<W> {
    ghost use Rattle.am_io.specs.Standard.{StreamState, stream_code};

    ghost Value = { StreamState };

    ghost coded = { stream_code };

    ghost view = { λ s. record { bytes = W.contents s.writer; faults = s.faults } };
}

impl<W: Write> StdSink<W> {
    pub fn new(writer: W) -> StdSink<W>
        ensures { result ≡ record { bytes = W.contents writer; faults = 0 } }
    {
        StdSink { writer, faults: 0 }
    }
}

impl<W: Write> Sink for StdSink<W> {
    ghost taken = { λ s. s.bytes };

    ghost faults = { λ s. s.faults };

    ghost calls = { λ _. 0 };

    ghost finishes = { λ _. 0 };

    ghost finished = { λ _. Unit {0} };

    /// A write of no byte is a fault, as an error is.
    fn put(&mut self, piece: &[u8]) -> Result<usize, Failed> {
        match counted(self.writer.write(piece), &mut self.faults)? {
            0 => {
                self.faults += 1;
                Err(Failed::Failed)
            }
            count => Ok(count),
        }
    }

    fn finish(&mut self) -> Result<(), Failed> {
        counted(self.writer.flush(), &mut self.faults)
    }
}
