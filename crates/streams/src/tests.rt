use crate::{
    Failed, MemSink, MemSource, ReadError, Sink, Source, StdSink, StdSource, read_all, write_all,
};
use mem_base::List;
use std::alloc::{AllocError, Global};
use std::io;
use std::io::{BufWriter, ErrorKind, Read, Write};
use std::process::Abort;
use std::test::Fail;

const MAX: u64 = mem_base::limits::MAX_INPUT;

/// Bytes that repeat only after 251, so that a chunk that is lost or comes twice shows.
fn pattern(alloc: Global, count: usize) -> Result<Vec<u8>, AllocError> {
    let mut bytes = Vec::with_capacity(alloc, count)?;
    for at in 0..count {
        bytes.push((at % 251) as u8)?;
    }
    Ok(bytes)
}

/// A source of the pattern that fails at that call.
fn source(alloc: Global, count: usize, fail_at: Option<u64>) -> Result<MemSource, AllocError> {
    Ok(MemSource::new(List::from_vec(pattern(alloc, count)?), fail_at))
}

fn expect_read(rt: &impl Abort, source: &mut MemSource, want: Result<&[u8], Failed>) {
    let mut buf = [0u8; 4];
    match (source.read(&mut buf), want) {
        (Ok(count), Ok(bytes)) => assert_eq!(rt; &buf[..count], bytes),
        (Err(_), Err(_)) => {}
        _ => panic!(rt; "one of the two failed"),
    }
}

/// Why not all was read. Want of memory ends the test.
fn fault_of(answer: Result<List<u8>, ReadError>) -> Result<Option<ReadError>, AllocError> {
    match answer {
        Ok(_) => Ok(None),
        Err(ReadError::OutOfMemory) => Err(AllocError),
        Err(error) => Ok(Some(error)),
    }
}

#[test]
fn a_source_in_memory_gives_its_bytes_and_fails_at_the_third_call(
    rt: HostRuntime,
) -> Result<(), Fail> {
    let bytes = List::from_slice(rt.alloc(), b"abcdefg")?;
    let mut source = MemSource::new(bytes, Some(3));
    expect_read(&rt, &mut source, Ok(b"abcd"));
    assert_eq!(rt; source.read(&mut []).ok(), Some(0));
    expect_read(&rt, &mut source, Err(Failed));
    expect_read(&rt, &mut source, Ok(b"efg"));
    expect_read(&rt, &mut source, Ok(b""));
    Ok(())
}

#[test]
fn a_sink_in_memory_takes_thirty_bytes(rt: HostRuntime) -> Result<(), Fail> {
    let piece = pattern(rt.alloc(), 40)?;
    let mut sink = MemSink::new(rt.alloc(), 30)?;
    assert_eq!(rt; sink.write(b"").ok(), Some(0));
    assert!(rt; write_all(&mut sink, piece.as_slice()).is_err());
    assert_eq!(rt; Some(sink.bytes()), piece.get(..30));
    assert!(rt; sink.write(b"x").is_err());
    Ok(())
}

#[test]
fn all_is_read_up_to_the_limit_and_no_more(rt: HostRuntime) -> Result<(), Fail> {
    let want = pattern(rt.alloc(), 50_000)?;
    let mut input = source(rt.alloc(), 50_000, None)?;
    let all = read_all(rt.alloc(), &mut input, 50_000)?;
    assert_eq!(rt; all.as_slice(), want.as_slice());
    let mut longer = source(rt.alloc(), 50_001, None)?;
    let answer = read_all(rt.alloc(), &mut longer, 50_000);
    assert_eq!(rt; fault_of(answer)?, Some(ReadError::TooLong));
    let mut none = source(rt.alloc(), 0, None)?;
    assert_eq!(rt; read_all(rt.alloc(), &mut none, 0)?.len(), 0);
    Ok(())
}

#[test]
fn a_read_that_fails_in_mid_stream_ends_it(rt: HostRuntime) -> Result<(), Fail> {
    let mut input = source(rt.alloc(), 50_000, Some(2))?;
    let answer = read_all(rt.alloc(), &mut input, MAX);
    assert_eq!(rt; fault_of(answer)?, Some(ReadError::Failed));
    // What came before the failure is gone, and the rest is still there.
    let rest = read_all(rt.alloc(), &mut input, MAX)?;
    let want = pattern(rt.alloc(), 50_000)?;
    let gone = want.len() - rest.len().min(want.len());
    assert!(rt; gone > 0);
    assert_eq!(rt; rest.as_slice(), &want[gone..]);
    Ok(())
}

#[test]
fn readers_and_writers_of_std_pass_their_bytes_on(rt: HostRuntime) -> Result<(), Fail> {
    let want = pattern(rt.alloc(), 20_000)?;
    let mut reader = StdSource::new(want.as_slice());
    let all = read_all(rt.alloc(), &mut reader, MAX)?;
    assert_eq!(rt; all.as_slice(), want.as_slice());
    let mut written = Vec::new(rt.alloc());
    let mut sink = StdSink::new(&mut written);
    for part in want.chunks(999) {
        write_all(&mut sink, part)?;
    }
    assert_eq!(rt; written.as_slice(), want.as_slice());
    Ok(())
}

/// A reader and writer of std each call of which fails.
#[derive(Drop)]
struct Broken;

impl Read for Broken {
    fn read(&mut self, _buf: &mut [u8]) -> io::Result<usize> {
        Err(io::Error::from(ErrorKind::BrokenPipe))
    }
}

impl Write for Broken {
    fn write(&mut self, _buf: &[u8]) -> io::Result<usize> {
        Err(io::Error::from(ErrorKind::BrokenPipe))
    }

    fn flush(&mut self) -> io::Result<()> {
        Ok(())
    }
}

#[test]
fn errors_of_std_are_failures(rt: HostRuntime) -> Result<(), Fail> {
    let answer = read_all(rt.alloc(), &mut StdSource::new(Broken), MAX);
    assert_eq!(rt; fault_of(answer)?, Some(ReadError::Failed));
    assert!(rt; write_all(&mut StdSink::new(Broken), b"x").is_err());
    // A writer that takes nothing has failed too.
    let mut room = [0u8; 3];
    assert!(rt; write_all(&mut StdSink::new(room.as_mut_slice()), b"abcd").is_err());
    assert_eq!(rt; room, *b"abc");
    Ok(())
}

#[test]
fn a_buffer_holds_pieces_back_until_the_flush(rt: HostRuntime) -> Result<(), Fail> {
    let alloc = rt.alloc();
    let mut written = Vec::new(alloc);
    let mut sink = StdSink::new(BufWriter::with_capacity(alloc, 8, &mut written)?);
    for piece in [b"abc".as_slice(), b"defghijklmnop", b"q"] {
        write_all(&mut sink, piece)?;
    }
    sink.flush()?;
    drop(sink);
    assert_eq!(rt; written.as_slice(), b"abcdefghijklmnopq".as_slice());
    let mut late = StdSink::new(BufWriter::with_capacity(alloc, 8, Broken)?);
    assert!(rt; write_all(&mut late, b"abc").is_ok());
    assert!(rt; late.flush().is_err());
    let mut early = StdSink::new(BufWriter::with_capacity(alloc, 8, Broken)?);
    assert!(rt; write_all(&mut early, b"abcdefghi").is_err());
    Ok(())
}

#[test]
fn errors_are_printed_in_words(rt: HostRuntime) -> Result<(), Fail> {
    let text = format!(in rt.alloc();
        "{}, {}, {}, {}",
        Failed,
        ReadError::Failed,
        ReadError::TooLong,
        ReadError::OutOfMemory
    )?;
    assert_eq!(rt;
        text.as_str(),
        "a read or a write failed, a read failed, the input is too long, out of memory"
    );
    Ok(())
}
