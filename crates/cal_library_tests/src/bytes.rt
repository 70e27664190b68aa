//! Reading from sources and writing to sinks that end, fail or never end.

use crate::shared::ensure;
use cal_base::{
    Faulty, Output, Port, Sink, Source, Then, WholeFault, WriteFault, put_all, read_whole,
};
use std::alloc::Global;
use std::io::BufWriter;
use std::test::Fail;

/// A test of `read_whole`: the bytes of the source, how many of them a call returns at most, what the source does after
/// its last byte, the limit, the expected error, and the expected number of calls. Unless the source exceeds the limit,
/// one more call after the last byte finds the end or the failure.
type Reading = (&'static str, usize, Then, usize, Option<WholeFault>, u64);

static READINGS: [Reading; 8] = [
    ("abcde", 1, Then::Zero, 5, None, 6),
    ("abcde", 3, Then::Zero, 9, None, 3),
    // In the next row: an empty source, with a limit of 0.
    ("", 1, Then::Zero, 0, None, 1),
    // In the next row: as many bytes as the limit allows.
    ("0123456789", 1, Then::Zero, 10, None, 11),
    // In the next row, the source fails at its third call, before the limit is reached.
    ("xx", 1, Then::Error, 9, Some(WholeFault::ReadFailed), 3),
    // In the next row, the byte over the limit arrives before the source would have failed.
    ("xx", 1, Then::Error, 1, Some(WholeFault::TooLarge), 2),
    // The last two sources are endless: reading stops with the first byte over the limit.
    ("", 1, Then::Endless, 10, Some(WholeFault::TooLarge), 11),
    ("xxx", 1, Then::Endless, 0, Some(WholeFault::TooLarge), 1),
];

/// Reads a source to its end. Returns the bytes or the error, and the number of calls made.
fn read(alloc: Global, reader: Faulty, limit: usize) -> (Result<Vec<u8>, WholeFault>, u64) {
    let mut port = Port::new(reader);
    let whole = read_whole(alloc, &mut port, limit);
    (whole, port.into_inner().calls())
}

/// Reads the source, and expects the error of the test or, if the test has none, all bytes of the source. Also expects
/// the number of calls that the test gives.
fn expect_reading(alloc: Global, reading: &Reading) -> Result<(), Fail> {
    let (text, step, then, limit, wanted, calls) = *reading;
    if step == 0 {
        return Err("no step".into());
    }
    let bytes = text.as_bytes().to_vec(alloc)?;
    let reader = Faulty::new(bytes, step, text.len(), then);
    let (whole, made) = read(alloc, reader, limit);
    ensure(made == calls && is_wanted(text, wanted, &whole), text)
}

/// Returns whether `whole` is the error `wanted` or, if `wanted` is `None`, all bytes of `text`.
fn is_wanted(text: &str, wanted: Option<WholeFault>, whole: &Result<Vec<u8>, WholeFault>) -> bool {
    match whole {
        Ok(whole) => wanted.is_none() && whole.as_slice() == text.as_bytes(),
        Err(fault) => wanted == Some(*fault),
    }
}

#[test]
fn reads_whole(rt: HostRuntime) -> Result<(), Fail> {
    for reading in &READINGS {
        expect_reading(rt.alloc(), reading)?;
    }
    Ok(())
}

/// Expects the next call of `fetch` to return `count` bytes, or to fail if `count` is `None`. Expects the buffer `into`
/// to hold the bytes of `held` afterwards.
fn expect_fetch(
    reader: &mut Port<Faulty>,
    into: &mut [u8],
    count: Option<usize>,
    held: &str,
) -> Result<(), Fail> {
    if reader.failed() {
        return Err("it failed before".into());
    }
    ensure(reader.fetch(into) == count, held)?;
    ensure(reader.failed() == count.is_none(), held)?;
    ensure(&*into == held.as_bytes(), held)
}

#[test]
fn reads_until_it_fails(rt: HostRuntime) -> Result<(), Fail> {
    let bytes = b"abc".to_vec(rt.alloc())?;
    let mut port = Port::new(Faulty::new(bytes, 2, 3, Then::Interrupted));
    let mut into = *b"####";
    expect_fetch(&mut port, &mut into, Some(2), "ab##")?;
    expect_fetch(&mut port, &mut into, Some(1), "cb##")?;
    expect_fetch(&mut port, &mut into, None, "cb##")?;
    ensure(port.into_inner().calls() == 3, "not three calls")
}

#[test]
fn readers_end_or_go_on(rt: HostRuntime) -> Result<(), Fail> {
    let mut into = *b"\0\0";
    let mut used_up = Port::new(Faulty::new(Vec::new(rt.alloc()), 1, 9, Then::Error));
    expect_fetch(&mut used_up, &mut into, Some(0), "\0\0")?;
    let mut endless = Port::new(Faulty::new(Vec::new(rt.alloc()), 9, 0, Then::Endless));
    for _ in 0..3 {
        expect_fetch(&mut endless, &mut into, Some(2), "##")?;
    }
    Ok(())
}

/// A sink to which `abc` is written: how many bytes it takes at most in each call and in total, what it does once it
/// has taken the total, the bytes that it should have in the end, and the expected number of calls.
type Writer = (usize, usize, Then, &'static str, u64);

static WRITERS: [Writer; 8] = [
    (1, 3, Then::Error, "abc", 3),
    (2, 9, Then::Error, "abc", 2),
    (1, 2, Then::Error, "ab", 3),
    (3, 1, Then::Interrupted, "a", 2),
    (1, 0, Then::Interrupted, "", 1),
    // In the next two rows, a call takes 0 bytes, which is a failure.
    (1, 0, Then::Zero, "", 1),
    (1, 2, Then::Zero, "ab", 3),
    (9, 2, Then::Endless, "ab", 2),
];

/// Writes `abc` to a sink. Returns the error, if any, and the sink.
fn write(writer: Faulty) -> (Option<WriteFault>, Faulty) {
    let mut port = Port::new(writer);
    let fault = put_all(&mut port, b"abc").err();
    (fault, port.into_inner())
}

/// Writes `abc` to the sink. Expects the bytes and the number of calls that the test gives, and an error if and only if
/// the sink didn't get all of `abc`.
fn expect_written(alloc: Global, writer: &Writer) -> Result<(), Fail> {
    let (step, limit, then, written, calls) = *writer;
    if step == 0 {
        return Err("no step".into());
    }
    let (fault, writer) = write(Faulty::new(Vec::new(alloc), step, limit, then));
    ensure(fault.is_some() == (written != "abc"), written)?;
    ensure(writer.calls() == calls, written)?;
    ensure(writer.bytes() == written.as_bytes(), written)
}

#[test]
fn writes_until_it_fails(rt: HostRuntime) -> Result<(), Fail> {
    for writer in &WRITERS {
        expect_written(rt.alloc(), writer)?;
    }
    Ok(())
}

/// Offers `abc` to a buffer in front of a sink that takes `limit` bytes, and flushes the buffer. Returns the result of
/// `offer`, the result of `flush`, whether one of the two calls failed, and the sink.
fn hold_back(alloc: Global, limit: usize) -> Result<((Option<usize>, bool, bool), Faulty), Fail> {
    let writer = Faulty::new(Vec::new(alloc), 2, limit, Then::Error);
    let mut port = Port::new(BufWriter::new(alloc, writer)?);
    let answers = (port.offer(b"abc"), port.flush(), port.failed());
    let (writer, _) = port.into_inner().into_parts();
    Ok((answers, writer))
}

/// Checks that a buffer, when it is flushed, passes on the bytes that it holds, as far as the sink takes them.
#[test]
fn held_back_until_flushed(rt: HostRuntime) -> Result<(), Fail> {
    for (limit, is_flushed, written) in &[(3, true, "abc"), (2, false, "ab")] {
        let (answers, writer) = hold_back(rt.alloc(), *limit)?;
        ensure(answers == (Some(3), *is_flushed, !*is_flushed), written)?;
        ensure(writer.bytes() == written.as_bytes(), written)?;
    }
    Ok(())
}
