//! Worked readings and writings, with faults in mid-stream.
use line_io::{
    Failed, MemorySink, MemorySource, ReadRefused, Sink, Source, StdSink, StdSource, WriteFault,
    read_all, write_all,
};
use std::alloc::Global;
use std::io;
use std::io::{Error, ErrorKind, Read, Write};
use std::test::Fail;

/// What a reading of these bytes answers, with the number of its bytes, where a call of this number fails.
fn reading(
    alloc: Global,
    text: &[u8],
    failing: u64,
    limit: u64,
) -> Result<Result<u64, ReadRefused>, Fail> {
    let bytes = Vec::from_slice(alloc, text)?;
    let mut source = MemorySource::new(bytes, vec![in alloc; failing]?);
    match read_all(alloc, &mut source, limit) {
        Ok(read) => {
            if read.as_slice() == text {
                Ok(Ok(read.len() as u64))
            } else {
                Ok(Ok(u64::MAX))
            }
        }
        Err(why) => Ok(Err(why)),
    }
}

/// Whether writings of these pieces answer so, where the third call fails and there is room for eight bytes, and
/// the sink then holds these bytes.
fn has_written(
    alloc: Global,
    pieces: &[(&[u8], Result<(), WriteFault>)],
    held: &[u8],
) -> Result<bool, Fail> {
    let mut sink = MemorySink::new(alloc, vec![in alloc; 3]?);
    if sink.reserve(8).is_err() {
        return Ok(false);
    }
    for (piece, wanted) in pieces {
        if write_all(&mut sink, *piece) != *wanted {
            return Ok(false);
        }
    }
    Ok(sink.bytes() == held)
}

/// A reader whose reads fail.
#[derive(Drop)]
struct Broken;

impl Read for Broken {
    fn read(&mut self, _buf: &mut [u8]) -> io::Result<usize> {
        Err(Error::from(ErrorKind::Other))
    }
}

/// A writer that takes nothing.
#[derive(Drop)]
struct Full;

impl Write for Full {
    fn write(&mut self, _buf: &[u8]) -> io::Result<usize> {
        Ok(0)
    }

    fn flush(&mut self) -> io::Result<()> {
        Ok(())
    }
}

fn is_read_by_std(alloc: Global, text: &[u8]) -> bool {
    let mut source = StdSource::new(text);
    read_all(alloc, &mut source, 3).is_ok_and(|bytes| bytes.as_slice() == text)
}

fn is_written_by_std(alloc: Global, text: &[u8]) -> bool {
    let mut sink = StdSink::new(Vec::new(alloc));
    write_all(&mut sink, text) == Ok(())
}

#[test]
fn reads_to_the_end(rt: HostRuntime) -> Result<(), Fail> {
    let cases: [(u64, u64, Result<u64, ReadRefused>); 6] = [
        (0, 3, Ok(3)),
        (0, 4, Ok(3)),
        (0, 2, Err(ReadRefused::TooLong)),
        (1, 3, Err(ReadRefused::ReadFault)),
        (2, 3, Err(ReadRefused::ReadFault)),
        (3, 3, Ok(3)),
    ];
    for (failing, limit, wanted) in cases {
        let answer = reading(rt.alloc(), b"abc", failing, limit)?;
        assert!(rt; answer == wanted, "failing {failing}, limit {limit}");
    }
    Ok(())
}

#[test]
fn writes_up_to_the_fault(rt: HostRuntime) -> Result<(), Fail> {
    let long = [0; 64];
    let pieces: [(&[u8], Result<(), WriteFault>); 6] = [
        (b"ab", Ok(())),
        (b"", Ok(())),
        (b"c", Ok(())),
        (b"d", Err(WriteFault)),
        (b"e", Ok(())),
        (&long, Err(WriteFault)),
    ];
    assert!(rt; has_written(rt.alloc(), &pieces, b"abce")?);
    Ok(())
}

#[test]
fn counts_the_faults_of_std(rt: HostRuntime) -> Result<(), Fail> {
    assert!(rt; is_read_by_std(rt.alloc(), b"abc"));
    assert!(rt; StdSource::new(Broken).read(&mut [0; 4]) == Err(Failed));
    assert!(rt; is_written_by_std(rt.alloc(), b"abc"));
    assert!(rt; StdSink::new(Full).write(b"abc") == Err(Failed));
    let _standard_in = StdSource::new(rt.reader());
    let _standard_out = StdSink::new(io::writer(&rt));
    Ok(())
}
