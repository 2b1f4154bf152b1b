//! The forms in memory with calls that fail, and standard output over a runtime of our own.

use crate::{Failed, MemSink, MemSource, Sink, Source, StdSink, StdSource};
use std::fmt::Display;
use std::io;
use std::test::Fail;

#[test]
fn a_source_gives_its_bytes_in_order_and_fails_where_it_is_told(
    rt: HostRuntime,
) -> Result<(), Fail> {
    let bytes = b"abcde".to_vec(rt.alloc())?;
    let mut source = MemSource::new(bytes, [2, 4].to_vec(rt.alloc())?);
    let mut piece = [0u8; 3];
    assert_eq!(rt; source.read(&mut piece), Ok(3));
    assert_eq!(rt; piece, *b"abc");
    assert_eq!(rt; source.read(&mut piece), Err(Failed));
    assert_eq!(rt; source.read(&mut piece), Ok(2));
    assert_eq!(rt; piece, *b"dec");
    assert_eq!(rt; source.read(&mut piece), Err(Failed));
    assert_eq!(rt; source.read(&mut piece), Ok(0));
    Ok(())
}

#[test]
fn a_sink_keeps_what_was_written_and_fails_where_it_is_told(rt: HostRuntime) -> Result<(), Fail> {
    let mut sink = MemSink::new(rt.alloc(), [2].to_vec(rt.alloc())?);
    assert_eq!(rt; sink.write(b"ab"), Ok(2));
    assert_eq!(rt; sink.write(b"cd"), Err(Failed));
    assert_eq!(rt; sink.write(b""), Ok(0));
    assert_eq!(rt; sink.write(b"e"), Ok(1));
    assert_eq!(rt; sink.as_slice(), b"abe".as_slice());
    Ok(())
}

// A runtime whose standard output takes at most so many bytes of a piece, or fails.
#[derive(Clone, Copy)]
struct Narrow(Option<usize>);

impl Print for Narrow {
    fn print<D: Display + Drop>(&self, _value: D) -> io::Result<()> {
        Ok(())
    }

    fn println<D: Display + Drop>(&self, _value: D) -> io::Result<()> {
        Ok(())
    }

    fn write_all(&self, _bytes: &[u8]) -> io::Result<()> {
        Ok(())
    }

    fn write_some(&self, bytes: &[u8]) -> io::Result<usize> {
        match self.0 {
            Some(most) => Ok(bytes.len().min(most)),
            None => Err(io::Error::from(io::ErrorKind::BrokenPipe)),
        }
    }
}

#[test]
fn standard_output_that_takes_nothing_fails(rt: HostRuntime) {
    assert_eq!(rt; StdSink::new(Narrow(Some(2))).write(b"abc"), Ok(2));
    assert_eq!(rt; StdSink::new(Narrow(Some(0))).write(b"abc"), Err(Failed));
    assert_eq!(rt; StdSink::new(Narrow(Some(0))).write(b""), Ok(0));
    assert_eq!(rt; StdSink::new(Narrow(None)).write(b"abc"), Err(Failed));
}

// A test has nothing on its standard input.
#[test]
fn standard_input_with_nothing_is_at_its_end(rt: HostRuntime) {
    let mut piece = [7u8; 3];
    assert_eq!(rt; StdSource::new(rt).read(&mut piece), Ok(0));
    assert_eq!(rt; piece, [7u8; 3]);
}

#[test]
fn standard_output_takes_a_piece(rt: HostRuntime) {
    assert_eq!(rt; StdSink::new(rt).write(b"piece\n"), Ok(6));
}
