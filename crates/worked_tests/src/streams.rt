//! Sources and sinks (xp_io).
use std::process::Abort;
use xp_io::{
    Failed, HonestSink, HonestSource, MemorySink, MemorySource, ReadAllError, Sink, Source,
    StdSink, StdSource, read_all, write_whole,
};

#[test]
fn a_source_in_memory_gives_its_bytes_in_pieces_and_then_nothing(rt: HostRuntime) {
    let bytes = [1u8, 2, 3].to_vec(rt.alloc()).expect(&rt, "memory");
    let mut source = MemorySource::in_pieces(bytes, 2, Vec::new(rt.alloc()));
    let mut into = [0u8; 4];
    assert!(rt; source.read(&mut into) == Ok(2));
    assert!(rt; into == [1u8, 2, 0, 0]);
    let rest = [source.read(&mut into), source.read(&mut into)];
    assert!(rt; rest == [Ok(1), Ok(0)]);
}

#[test]
fn a_named_read_fails_and_the_next_goes_on(rt: HostRuntime) {
    let bytes = [1u8].to_vec(rt.alloc()).expect(&rt, "memory");
    let fails = [1u64].to_vec(rt.alloc()).expect(&rt, "memory");
    let mut source = MemorySource::new(bytes, fails);
    let mut into = [0u8; 4];
    let reads = [source.read(&mut into), source.read(&mut into)];
    assert!(rt; reads == [Err(Failed), Ok(1)]);
}

#[test]
fn a_sink_in_memory_takes_few_bytes_at_a_call_until_it_is_full(rt: HostRuntime) {
    let mut sink = MemorySink::new(rt.alloc(), 3, 2, Vec::new(rt.alloc())).expect(&rt, "memory");
    let writes = [sink.write(b"abcd"), sink.write(b"cd"), sink.write(b"d")];
    assert!(rt; writes == [Ok(2), Ok(1), Err(Failed)]);
    assert!(rt; sink.bytes() == b"abc".as_slice());
}

// What comes of two bytes, where so many may be read.
fn all_within(rt: &(impl Abort + AllocGlobal), limit: usize) -> Result<Vec<u8>, ReadAllError> {
    let bytes = [7u8, 8].to_vec(rt.alloc()).expect(rt, "memory");
    let mut source = HonestSource::new(bytes);
    read_all(rt.alloc(), &mut source, limit)
}

#[test]
fn all_is_read_within_the_limit_and_no_more(rt: HostRuntime) {
    let all = all_within(&rt, 2).expect(&rt, "two bytes");
    assert!(rt; all.as_slice() == [7u8, 8].as_slice());
    assert!(rt; all_within(&rt, 1).err() == Some(ReadAllError::Large));
}

// What comes of a write of eight bytes into a sink that takes three at a call and fails at the calls in that list, where it has those bytes then.
fn writes(
    rt: &(impl Abort + AllocGlobal),
    fails: &[u64],
    bytes: &[u8],
) -> Option<Result<(), Failed>> {
    let fails = fails.to_vec(rt.alloc()).expect(rt, "memory");
    let mut sink = MemorySink::new(rt.alloc(), 8, 3, fails).expect(rt, "memory");
    let told = write_whole(&mut sink, b"abcdefgh");
    if sink.bytes() == bytes {
        Some(told)
    } else {
        None
    }
}

#[test]
fn all_is_written_in_pieces_or_a_front_of_it(rt: HostRuntime) {
    assert!(rt; writes(&rt, &[], b"abcdefgh") == Some(Ok(())));
    assert!(rt; writes(&rt, &[2], b"abc") == Some(Err(Failed)));
    let mut sink = HonestSink::new();
    assert!(rt; write_whole(&mut sink, b"abc") == Ok(()));
}

#[test]
fn readers_and_writers_of_std_are_adapted(rt: HostRuntime) {
    let mut source = StdSource::new(b"xyz".as_slice());
    let all = read_all(rt.alloc(), &mut source, 9).expect(&rt, "three bytes");
    let mut sink = StdSink::new(Vec::new(rt.alloc()));
    assert!(rt; write_whole(&mut sink, &all) == Ok(()));
}
