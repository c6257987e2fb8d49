use crate::broken::Broken;
use edge_io::{
    MemorySink, MemorySource, ReadFault, Sink, Source, StdSink, StdSource, read_up_to, write_all,
};
use std::alloc::{AllocError, Global};
use std::test::Fail;

/// Limits, the reads that fail, and how many of five bytes are read.
const READS: [(u8, &[u64], Result<usize, ReadFault>); 5] = [
    (9, &[], Ok(5)),
    (5, &[], Ok(5)),
    (4, &[], Ok(5)),
    (3, &[2], Ok(4)),
    (9, &[2], Err(ReadFault::Failed)),
];

/// How many bytes a reader has before it fails, limits, and how many bytes are read.
const BROKEN_READS: [(u64, u8, Result<usize, ReadFault>); 3] = [
    (2, 1, Ok(2)),
    (2, 2, Err(ReadFault::Failed)),
    (0, 9, Err(ReadFault::Failed)),
];

/// Texts that are written one after another, and whether they are taken, where the second call fails.
const WRITES: [(&str, bool); 4] = [("abc", true), ("", true), ("de", false), ("f", true)];

/// Texts, and how often they fail at a writer that takes three bytes.
const BROKEN_WRITES: [(&str, u64); 3] = [("", 0), ("abc", 0), ("abcd", 1)];

#[test]
fn a_source_in_memory_is_read_to_its_end_or_past_the_limit_or_to_its_fault(
    rt: HostRuntime,
) -> Result<(), Fail> {
    assert!(rt; reads_memory(rt.alloc())?);
    Ok(())
}

fn reads_memory(alloc: Global) -> Result<bool, AllocError> {
    'cases: for (limit, fail, want) in READS {
        let mut source = memory_source(alloc, fail)?;
        if !reads(alloc, &mut source, limit, want) {
            return Ok(false);
        }
    }
    Ok(true)
}

fn memory_source(alloc: Global, fail: &[u64]) -> Result<MemorySource, AllocError> {
    let bytes = Vec::from_slice(alloc, b"abcde")?;
    Ok(MemorySource::new(bytes, Vec::from_slice(alloc, fail)?))
}

#[test]
fn a_reader_is_read_to_its_end_or_past_the_limit_or_to_its_fault(rt: HostRuntime) {
    let mut whole = StdSource::new(b"abc".as_slice());
    let is_read = reads(rt.alloc(), &mut whole, 9, Ok(3)) && reads_broken(rt.alloc());
    assert!(rt; is_read);
}

fn reads_broken(alloc: Global) -> bool {
    BROKEN_READS.iter().all(|case| reads(
        alloc,
        &mut StdSource::new(Broken { left: case.0 }),
        case.1,
        case.2,
    ))
}

// Whether so much is read, and a fault is counted where there is one.
fn reads<S: Source>(
    alloc: Global,
    source: &mut S,
    limit: u8,
    want: Result<usize, ReadFault>,
) -> bool {
    read_count(alloc, source, limit) == want && source.faults() == u64::from(want.is_err())
}

fn read_count<S: Source>(alloc: Global, source: &mut S, limit: u8) -> Result<usize, ReadFault> {
    Ok(read_up_to(alloc, source, usize::from(limit))?.len())
}

#[test]
fn a_sink_in_memory_takes_all_but_what_fails(rt: HostRuntime) -> Result<(), Fail> {
    assert!(rt; writes_memory(rt.alloc())?);
    Ok(())
}

fn writes_memory(alloc: Global) -> Result<bool, AllocError> {
    let mut sink = MemorySink::new(alloc, Vec::from_slice(alloc, &[2])?);
    Ok(takes_all(&mut sink) && has_taken(&sink))
}

fn takes_all(sink: &mut MemorySink) -> bool {
    'cases: for (text, want) in WRITES {
        if write_all(sink, text.as_bytes()).is_ok() != want {
            return false;
        }
    }
    true
}

fn has_taken(sink: &MemorySink) -> bool {
    sink.written() == b"abcf".as_slice() && sink.faults() == 1 && sink.lacked() == 0
}

#[test]
fn a_writer_is_written_up_to_its_fault(rt: HostRuntime) {
    assert!(rt;
        BROKEN_WRITES
            .iter()
            .all(|case| writes_broken(case.0, case.1))
    );
}

fn writes_broken(text: &str, faults: u64) -> bool {
    let mut room = [0u8; 3];
    writes(&mut StdSink::new(Broken { left: 3 }), text, faults)
        && writes(&mut StdSink::new(room.as_mut_slice()), text, faults)
}

// Whether it fails where there are faults, and they are counted.
fn writes<K: Sink>(sink: &mut K, text: &str, faults: u64) -> bool {
    write_all(sink, text.as_bytes()).is_err() == (faults != 0) && sink.faults() == faults
}
