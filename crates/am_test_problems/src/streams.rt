//! What a sink is offered, streams in memory that fail, and the texts of errors.

ghost use Rattle.std.specs.Prelude.{None};

use am_io::{Failed, MemorySink, MemorySource, ReadEnd, Sink, read_all, write_all};
use std::test::Fail;

/// A sink that takes two bytes of each piece and keeps how long the pieces were.
#[derive(Drop)]
struct Lengths {
    pieces: [usize; 3],
    calls: usize,
}

impl Sink for Lengths {
    ghost taken = { λ _. None };

    ghost faults = { λ _. 0 };

    ghost calls = { λ _. 0 };

    ghost finishes = { λ _. 0 };

    ghost finished = { λ _. Unit {0} };

    fn put(&mut self, piece: &[u8]) -> Result<usize, Failed> {
        if self.calls < 3 {
            self.pieces[self.calls] = piece.len();
            self.calls += 1;
        }
        Ok(piece.len().min(2))
    }

    fn finish(&mut self) -> Result<(), Failed> {
        Ok(())
    }
}

#[test]
fn each_put_gets_all_that_is_left(rt: HostRuntime) {
    let mut sink = Lengths {
        pieces: [0; 3],
        calls: 0,
    };
    assert!(rt; write_all(&mut sink, b"abcde").is_ok());
    assert_eq!(rt; sink.pieces, [5, 3, 1]);
}

#[test]
fn a_source_in_memory_fails_at_its_call(rt: HostRuntime) -> Result<(), Fail> {
    let bytes = b"abcde".to_vec(rt.alloc())?;
    let mut source = MemorySource::new(bytes, 2, [2].to_vec(rt.alloc())?);
    let end = read_all(rt.alloc(), &mut source, 9).err();
    assert_eq!(rt; end, Some(ReadEnd::ReadFault));
    Ok(())
}

#[test]
fn a_sink_in_memory_keeps_what_it_took(rt: HostRuntime) -> Result<(), Fail> {
    let mut sink = MemorySink::new(rt.alloc(), 9, 2, [1].to_vec(rt.alloc())?)?;
    assert!(rt; write_all(&mut sink, b"abcde").is_err());
    assert_eq!(rt; sink.taken(), b"ab".as_slice());
    Ok(())
}

#[test]
fn errors_read_well(rt: HostRuntime) -> Result<(), Fail> {
    let texts = [
        (ReadEnd::ReadFault, "read fault"),
        (ReadEnd::Long, "input too long"),
        (ReadEnd::NoMemory, "no memory"),
    ];
    for (end, text) in texts {
        assert_eq!(rt; format!(in rt.alloc(); "{end}")?.as_str(), text);
    }
    Ok(())
}
