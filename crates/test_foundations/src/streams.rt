//! Streams in memory, and those of std.

ghost use Rattle.std.specs.Prelude.{◌≡◌, ◌<◌, IfOk};

use adj_io::{
    Failed, MemSink, MemSource, ReadError, Sink, Source, StdSink, StdSource, WriteFault, read_all,
    write_all,
};
use std::alloc::{AllocError, Global};
use std::io::{self, ErrorKind, Read, Write};

const TEXT: &[u8] = b"      SUBROUTINE P_B(X,XB,Y,YB)\n";

fn source(alloc: Global, failing: &[u64]) -> Result<MemSource, AllocError> {
    let bytes = Vec::from_slice(alloc, TEXT)?;
    let failing = Vec::from_slice(alloc, failing)?;
    Ok(MemSource::new(bytes, failing, 10))
}

fn sink(alloc: Global, room: usize, failing: &[u64]) -> Result<MemSink, AllocError> {
    let failing = Vec::from_slice(alloc, failing)?;
    MemSink::new(alloc, room, failing, 10).map_err(|_| AllocError)
}

// Whether the source gives these bytes up to its end.
fn gives<S: Source>(alloc: Global, source: &mut S, limit: usize, wanted: &[u8]) -> bool
    requires { limit < 1000 }
{
    let Ok(read) = read_all(alloc, source, limit) else {
        return false;
    };
    read.as_slice() == wanted
}

// Why the source isn't read whole.
fn refusal<S: Source>(alloc: Global, source: &mut S, limit: usize) -> Option<ReadError>
    requires { limit < 1000 }
{
    read_all(alloc, source, limit).err()
}

// Whether the text is read whole up to a limit.
fn is_read(alloc: Global, limit: usize) -> Result<bool, AllocError>
    requires { limit < 1000 }
{
    let mut source = source(alloc, &[])?;
    Ok(gives(alloc, &mut source, limit, TEXT))
}

// Whether it is too long for the limit.
fn is_too_long(alloc: Global, limit: usize) -> Result<bool, AllocError>
    requires { limit < 1000 }
{
    let mut source = source(alloc, &[])?;
    Ok(refusal(alloc, &mut source, limit) == Some(ReadError::TooLong))
}

#[test]
fn inputs_up_to_the_limit_are_read_whole(rt: HostRuntime) {
    let alloc = rt.alloc();
    assert!(rt; [is_read(alloc, TEXT.len()), is_read(alloc, 100)] == [Ok(true); 2]);
    assert!(rt; [is_too_long(alloc, TEXT.len() - 1), is_too_long(alloc, 0)] == [Ok(true); 2]);
}

#[test]
fn a_failing_read_ends_the_reading_and_takes_nothing(rt: HostRuntime) -> Result<(), AllocError> {
    let alloc = rt.alloc();
    let mut source = source(alloc, &[2])?;
    let fails = refusal(alloc, &mut source, 100) == Some(ReadError::ReadFault);
    let goes_on = gives(alloc, &mut source, 100, &TEXT[10..]);
    assert!(rt; fails && goes_on);
    Ok(())
}

// Whether a sink whose room is used up by the text takes no byte more.
fn ends(sink: &mut MemSink) -> bool {
    let written = [
        write_all(sink, TEXT),
        write_all(sink, b""),
        write_all(sink, b"C"),
    ];
    written == [Ok(()), Ok(()), Err(WriteFault)] && sink.bytes() == TEXT
}

// Whether a sink fails behind its first piece.
fn fails(sink: &mut MemSink) -> bool {
    write_all(sink, TEXT) == Err(WriteFault) && sink.bytes() == &TEXT[..10]
}

#[test]
fn writes_end_where_the_room_does_or_a_write_fails(rt: HostRuntime) -> Result<(), AllocError> {
    let mut full = sink(rt.alloc(), TEXT.len(), &[])?;
    let ends = ends(&mut full);
    let mut failing = sink(rt.alloc(), 100, &[2])?;
    let fails = fails(&mut failing);
    assert!(rt; ends && fails);
    Ok(())
}

/// A reader and writer that fails, or takes nothing.
#[derive(Drop)]
enum Broken {
    Fails,
    TakesNothing,
}

impl Broken {
    fn answer(&self) -> io::Result<usize>
        ensures { IfOk result (λ k. k ≡ 0) }
    {
        match self {
            Broken::Fails => Err(ErrorKind::BrokenPipe.into()),
            Broken::TakesNothing => Ok(0),
        }
    }
}

impl Read for Broken {
    fn read(&mut self, _: &mut [u8]) -> io::Result<usize> {
        self.answer()
    }
}

impl Write for Broken {
    fn write(&mut self, _: &[u8]) -> io::Result<usize> {
        self.answer()
    }

    fn flush(&mut self) -> io::Result<()> {
        Ok(())
    }
}

#[test]
fn a_std_reader_is_read_to_its_end_or_its_failure(rt: HostRuntime) {
    let alloc = rt.alloc();
    assert!(rt; gives(alloc, &mut StdSource::new(TEXT), 100, TEXT));
    let refusal = refusal(alloc, &mut StdSource::new(Broken::Fails), 100);
    assert!(rt; refusal == Some(ReadError::ReadFault));
}

// Whether a list takes the whole text.
fn takes_all(taken: &mut Vec<u8>) -> bool {
    let written = write_all(&mut StdSink::new(&mut *taken), TEXT);
    written == Ok(()) && taken.as_slice() == TEXT
}

// What a writer that takes nothing gives for no byte, and for one.
fn given_by_full() -> [Result<usize, Failed>; 2] {
    let mut full = StdSink::new(Broken::TakesNothing);
    [full.write(b""), full.write(b"C")]
}

#[test]
fn a_std_writer_takes_all_or_fails(rt: HostRuntime) {
    let mut taken = Vec::new(rt.alloc());
    assert!(rt; takes_all(&mut taken));
    let failing = write_all(&mut StdSink::new(Broken::Fails), TEXT);
    assert!(rt; failing == Err(WriteFault) && given_by_full() == [Ok(0), Err(Failed)]);
}
