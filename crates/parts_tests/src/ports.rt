use byte_ports::{
    MemSink, MemSource, PlainSink, PlainSource, ReadStop, Sink, Source, StdErr, StdIn, StdOut,
    WriteStop, read_all, write_all,
};
use std::alloc::{AllocError, Global};
use std::test::Fail;

// The bytes from one number up to another.
fn counting(alloc: Global, from: u8, to: u8) -> Result<Vec<u8>, AllocError> {
    let mut bytes = Vec::new(alloc);
    for byte in from..to {
        bytes.push(byte)?;
    }
    Ok(bytes)
}

// What is read of so many bytes up to a limit.
fn read_to(alloc: Global, len: u8, limit: u16) -> Result<Result<Vec<u8>, ReadStop>, AllocError> {
    let mut source = MemSource::new(counting(alloc, 0, len)?, 16, Vec::new(alloc));
    let read = read_all(alloc, &mut source, usize::from(limit));
    drop(source);
    Ok(read)
}

// Whether bytes are the numbers from one up to another.
fn counts(bytes: &[u8], from: u8, to: u8) -> bool {
    let mut next = from;
    for byte in bytes {
        if next >= to || *byte != next {
            return false;
        }
        next += 1;
    }
    next >= to
}

// Whether so many bytes are read up to a limit, or this is told.
fn is_read(alloc: Global, len: u8, limit: u16, stop: Option<ReadStop>) -> Result<bool, AllocError> {
    match read_to(alloc, len, limit)? {
        Ok(bytes) => {
            let counted = counts(&bytes, 0, len);
            drop(bytes);
            Ok(stop.is_none() && counted)
        }
        Err(told) => Ok(stop == Some(told)),
    }
}

#[test]
fn a_source_is_read_to_its_end_or_its_limit(rt: HostRuntime) -> Result<(), Fail> {
    let rows = [
        (0, 10, None),
        (155, 155, None),
        (155, 1000, None),
        (155, 154, Some(ReadStop::TooLong)),
        (1, 0, Some(ReadStop::TooLong)),
        (0, 0, None),
    ];
    for (len, limit, stop) in rows {
        assert!(rt;
            is_read(rt.alloc(), len, limit, stop)?,
            "{len} bytes at the limit {limit}"
        );
    }
    Ok(())
}

// Whether the second of its reads fails: what the first one took is gone then, and the source goes on with what is left.
fn fails_at_the_second_read(alloc: Global, source: &mut MemSource) -> Result<bool, Fail> {
    let fault = read_all(alloc, source, 1000).err();
    let rest = read_all(alloc, source, 1000)?;
    let left = counts(&rest, 16, 155);
    drop(rest);
    Ok(fault == Some(ReadStop::Fault) && left)
}

#[test]
fn the_second_read_fails(rt: HostRuntime) -> Result<(), Fail> {
    let faults = Vec::from_slice(rt.alloc(), &[2])?;
    let mut source = MemSource::new(counting(rt.alloc(), 0, 155)?, 16, faults);
    let fails = fails_at_the_second_read(rt.alloc(), &mut source);
    drop(source);
    assert!(rt; fails?);
    Ok(())
}

// Whether the numbers from one up to 72 are written with this answer, and what was written ends then at this number.
fn writes(
    alloc: Global,
    sink: &mut MemSink,
    from: u8,
    answer: Result<(), WriteStop>,
    end: u8,
) -> Result<bool, AllocError> {
    let bytes = counting(alloc, from, 72)?;
    let told = write_all(sink, &bytes);
    drop(bytes);
    Ok(told == answer && counts(sink.wrote(), 0, end))
}

// Whether the third of its writes fails, and it goes on behind what it wrote.
fn fails_at_the_third_write(alloc: Global, sink: &mut MemSink) -> Result<bool, AllocError> {
    Ok(writes(alloc, sink, 0, Err(WriteStop::Fault), 32)? && writes(alloc, sink, 32, Ok(()), 72)?)
}

#[test]
fn the_third_write_fails(rt: HostRuntime) -> Result<(), Fail> {
    let mut sink = MemSink::new(rt.alloc(), 16, Vec::from_slice(rt.alloc(), &[3])?);
    let fails = fails_at_the_third_write(rt.alloc(), &mut sink);
    drop(sink);
    assert!(rt; fails?);
    Ok(())
}

// Whether nothing is written with no call, of which the first would have failed.
fn fails_at_the_first_call(sink: &mut MemSink) -> bool {
    write_all(sink, &[]) == Ok(())
        && write_all(sink, &[7]) == Err(WriteStop::Fault)
        && write_all(sink, &[7]) == Ok(())
        && sink.wrote() == [7].as_slice()
}

#[test]
fn nothing_to_write_makes_no_call(rt: HostRuntime) -> Result<(), Fail> {
    let mut sink = MemSink::new(rt.alloc(), 16, Vec::from_slice(rt.alloc(), &[1])?);
    let fails = fails_at_the_first_call(&mut sink);
    drop(sink);
    assert!(rt; fails);
    Ok(())
}

// What a sink over plain memory has once the numbers up to 200 were written to it.
fn written(alloc: Global, sink: &mut PlainSink) -> Result<Vec<u8>, Fail> {
    let bytes = counting(alloc, 0, 200)?;
    let told = write_all(sink, &bytes);
    drop(bytes);
    match told {
        Ok(()) => Ok(Vec::from_slice(alloc, sink.wrote())?),
        Err(_) => Err(Fail::from("not written")),
    }
}

// What plain memory holds then.
fn kept(alloc: Global) -> Result<Vec<u8>, Fail> {
    let mut sink = PlainSink::new(alloc);
    let bytes = written(alloc, &mut sink);
    drop(sink);
    bytes
}

// Whether a source holds the numbers up to 200 and no more.
fn holds(alloc: Global, source: &mut PlainSource) -> Result<bool, Fail> {
    let back = read_all(alloc, source, 200)?;
    let counted = counts(&back, 0, 200);
    drop(back);
    Ok(counted && source.read(&mut [0; 4]) == Ok(0))
}

#[test]
fn plain_memory_holds_what_was_written(rt: HostRuntime) -> Result<(), Fail> {
    let mut source = PlainSource::new(kept(rt.alloc())?);
    let held = holds(rt.alloc(), &mut source);
    drop(source);
    assert!(rt; held?);
    Ok(())
}

#[test]
fn the_standard_streams_are_made(rt: HostRuntime) -> Result<(), Fail> {
    let mut out = StdOut::new(rt.stdout());
    let mut err = StdErr::new(rt.stderr());
    let mut input = StdIn::new(rt.stdin());
    let to_out = write_all(&mut out, b"standard output\n");
    let to_err = write_all(&mut err, b"standard error\n");
    let fault = read_all(rt.alloc(), &mut input, 0).err();
    drop(out);
    drop(err);
    drop(input);
    assert_eq!(rt; to_out, Ok(()));
    assert_eq!(rt; to_err, Ok(()));
    assert_eq!(rt; fault, None);
    Ok(())
}
