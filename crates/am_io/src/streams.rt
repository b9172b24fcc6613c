//! Sources and sinks, and what their calls do.

ghost use Rattle.std.specs.Prelude.{◌≡◌, ℕ, ◌+◌, ◌-◌, ◌<◌, ◌≤◌, ◌^◌, List, IfOk, OnOk, length};
ghost use Rattle.std.specs.declared.option.Option.{Option};
ghost use Rattle.std.specs.Io.{ReadsAtMost};
ghost use Rattle.std.specs.Io.KnownBytes.{Keeps, ReadConsumes, WriteAppends};
ghost use Rattle.am_io.specs.Streams.{FailsByCount};

/// A call of a source or a sink failed, and its count of faults rose.
#[derive(Clone, Copy, PartialEq, Eq, Debug)]
pub enum Failed {
    Failed,
}

/// Bytes that are read piece by piece.
pub trait Source {
    /// The bytes left, where the source tells them.
    ghost left: { Self → Option (List ℕ) };

    /// A count of faults, which never falls.
    ghost faults: { Self → ℕ };

    /// Any count that rises by at most one with each call, such as the number of calls so far.
    ghost calls: { Self → ℕ };

    /// Moves bytes from the front of the source to the front of the buffer, and says how many.
    /// `Ok(0)` is the end. A call that fails takes no bytes, and the next call may succeed.
    fn take(&mut self, into: &mut [u8]) -> Result<usize, Failed>
        requires room { 0 < length into.old }
        requires count { faults self.old < 2 ^ 64 - 1 }
        ensures bound { ReadsAtMost result into.new }
        ensures bytes { ReadConsumes (left self.old) (left self.new) result into.new }
        ensures cause { FailsByCount (faults self.old) (faults self.new) result }
        ensures calls { calls self.new ≤ calls self.old + 1 };
}

/// A place that takes bytes piece by piece.
pub trait Sink {
    /// The bytes taken so far, where the sink tells them.
    ghost taken: { Self → Option (List ℕ) };

    /// A count of faults, which never falls.
    ghost faults: { Self → ℕ };

    /// Any count that rises by at most one with each call, such as the number of calls so far.
    ghost calls: { Self → ℕ };

    /// Any count that rises by at most one with each `finish`, and with no `put`.
    ghost finishes: { Self → ℕ };

    /// What holds once a `finish` has succeeded.
    ghost finished: { Self → Type 0 };

    /// Takes one byte or more from the front of the piece, and says how many.
    fn put(&mut self, piece: &[u8]) -> Result<usize, Failed>
        requires some { 0 < length piece.now }
        requires count { faults self.old < 2 ^ 64 - 1 }
        ensures bound { IfOk result (λ n. (0 < n) × (n ≤ length piece.now)) }
        ensures bytes { WriteAppends (taken self.old) (taken self.new) result piece.now }
        ensures cause { FailsByCount (faults self.old) (faults self.new) result }
        ensures calls { calls self.new ≤ calls self.old + 1 }
        ensures finishes { finishes self.new ≤ finishes self.old };

    /// Passes on what was taken, to whatever lies beyond the sink. It takes no bytes.
    fn finish(&mut self) -> Result<(), Failed>
        requires { faults self.old < 2 ^ 64 - 1 }
        ensures bytes { Keeps (taken self.old) (taken self.new) }
        ensures cause { FailsByCount (faults self.old) (faults self.new) result }
        ensures calls { calls self.new ≤ calls self.old + 1 }
        ensures finishes { finishes self.new ≤ finishes self.old + 1 }
        ensures finished { OnOk result (finished self.new) };
}
