//! Ports in memory with their counted faults, and a batch before a sink.
use bh_base::{Batch, Failed, MemPort, NoMemory, Sink, Source, write_all};
use std::alloc::Global;

/// A port that fails these reads and writes, and cuts both as the pieces say.
fn port_of(
    alloc: Global,
    input: &[u8],
    pieces: &[usize],
    bad: (&[u64], &[u64]),
    most: (usize, usize),
) -> Result<MemPort, NoMemory> {
    let (bad_reads, bad_writes) = bad;
    let (room, calls) = most;
    let input = input.to_vec(alloc)?;
    let pieces = pieces.to_vec(alloc)?;
    let bad_reads = bad_reads.to_vec(alloc)?;
    let bad_writes = bad_writes.to_vec(alloc)?;
    MemPort::new(alloc, input, pieces, bad_reads, bad_writes, room, calls)
}

fn read(port: &mut MemPort, buf: &mut [u8]) -> Result<usize, Failed> {
    port.read(buf)
}

fn write(port: &mut MemPort, piece: &[u8]) -> Result<usize, Failed> {
    port.write(piece)
}

fn write_whole(port: &mut MemPort, piece: &[u8]) -> Result<(), Failed> {
    write_all(port, piece)
}

/// The calls that a port logged: behind `<` what was read, and behind `>` what was written.
fn shown_log(alloc: Global, port: &MemPort) -> Result<Vec<u8>, NoMemory> {
    let mut text = Vec::new(alloc);
    for i in 0..port.calls() {
        let (is_read, bytes) = port.call(i);
        text.push(if is_read { b'<' } else { b'>' })?;
        text.extend_from_slice(bytes)?;
    }
    Ok(text)
}

/// The answers of reads with room for four bytes, and then for none, and the log behind them.
fn seen_of_reads(alloc: Global) -> Result<([Result<usize, Failed>; 6], Vec<u8>), NoMemory> {
    let mut port = port_of(alloc, b"abcde", &[2, 0], (&[3], &[]), (0, 9))?;
    let mut buf = [0; 4];
    let answers = [
        read(&mut port, &mut buf),
        read(&mut port, &mut buf),
        read(&mut port, &mut buf),
        read(&mut port, &mut buf),
        read(&mut port, &mut buf),
        read(&mut port, &mut []),
    ];
    Ok((answers, shown_log(alloc, &port)?))
}

#[test]
fn reads_are_cut_by_the_pieces(rt: HostRuntime) -> Result<(), NoMemory> {
    let (answers, log) = seen_of_reads(rt.alloc())?;
    assert_eq!(rt; answers, [Ok(2), Ok(1), Err(Failed), Ok(2), Ok(0), Ok(0)]);
    // A failed read isn't logged, and one of no bytes is.
    assert_eq!(rt; log.as_slice(), b"<ab<c<de<<".as_slice());
    Ok(())
}

/// The answers of writes of three bytes, and then of none, and the log behind them.
fn seen_of_writes(alloc: Global) -> Result<([Result<usize, Failed>; 5], Vec<u8>), NoMemory> {
    let mut port = port_of(alloc, b"", &[2], (&[], &[2]), (4, 9))?;
    let answers = [
        write(&mut port, b"abc"),
        write(&mut port, b"abc"),
        write(&mut port, b"abc"),
        write(&mut port, b"abc"),
        write(&mut port, b""),
    ];
    Ok((answers, shown_log(alloc, &port)?))
}

#[test]
fn writes_are_cut_by_the_pieces_and_the_room(rt: HostRuntime) -> Result<(), NoMemory> {
    let (answers, log) = seen_of_writes(rt.alloc())?;
    // An empty piece needs no room.
    assert_eq!(rt; answers, [Ok(2), Err(Failed), Ok(2), Err(Failed), Ok(0)]);
    assert_eq!(rt; log.as_slice(), b">ab>ab>".as_slice());
    Ok(())
}

/// The answers of two reads and a write where one call has room in the log, and the log.
fn seen_past_the_log(alloc: Global) -> Result<([Result<usize, Failed>; 3], Vec<u8>), NoMemory> {
    let mut port = port_of(alloc, b"ab", &[], (&[], &[]), (5, 1))?;
    let mut buf = [0; 1];
    let answers = [
        read(&mut port, &mut buf),
        read(&mut port, &mut buf),
        write(&mut port, b"x"),
    ];
    Ok((answers, shown_log(alloc, &port)?))
}

#[test]
fn calls_past_the_log_fail(rt: HostRuntime) -> Result<(), NoMemory> {
    let (answers, log) = seen_past_the_log(rt.alloc())?;
    assert_eq!(rt; answers, [Ok(1), Err(Failed), Err(Failed)]);
    assert_eq!(rt; log.as_slice(), b"<a".as_slice());
    Ok(())
}

/// Whether two whole pieces were written, and what was sent of them.
fn sent_whole(alloc: Global) -> Result<([Result<(), Failed>; 2], Vec<u8>), NoMemory> {
    let mut port = port_of(alloc, b"", &[1, 2], (&[], &[]), (5, 9))?;
    let answers = [
        write_whole(&mut port, b"abc"),
        write_whole(&mut port, b"def"),
    ];
    Ok((answers, port.sent().to_vec(alloc)?))
}

#[test]
fn a_piece_is_written_whole_or_in_part(rt: HostRuntime) -> Result<(), NoMemory> {
    let (answers, sent) = sent_whole(rt.alloc())?;
    assert_eq!(rt; answers, [Ok(()), Err(Failed)]);
    assert_eq!(rt; sent.as_slice(), b"abcde".as_slice());
    Ok(())
}

fn put(batch: &mut Batch, port: &mut MemPort, bytes: &[u8]) {
    batch.put(port, bytes)
}

fn flush(batch: &mut Batch, port: &mut MemPort) -> Result<(), Failed> {
    batch.flush(port)
}

/// Puts so many bytes in a batch, and so many more, and flushes it: the writes and the bytes that the port took. The writes of
/// these numbers fail.
fn put_twice(
    alloc: Global,
    first: usize,
    second: usize,
    bad_writes: &[u64],
) -> Result<(Result<(), Failed>, usize, usize), NoMemory> {
    let mut port = port_of(alloc, b"", &[], (&[], bad_writes), (20_000, 9))?;
    let mut batch = Batch::new();
    put(&mut batch, &mut port, &vec![in alloc; 1; first]?);
    put(&mut batch, &mut port, &vec![in alloc; 2; second]?);
    let end = flush(&mut batch, &mut port);
    Ok((end, port.calls(), port.sent().len()))
}

#[test]
fn a_batch_hands_on_whole_buffers(rt: HostRuntime) -> Result<(), NoMemory> {
    let alloc = rt.alloc();
    let rows = [
        (0, 0, 0, 0),
        (1, 2, 1, 3),
        (8, 8_192, 1, 8_200),
        (8_200, 1, 2, 8_201),
        (16_401, 0, 3, 16_401),
    ];
    for (first, second, writes, bytes) in rows {
        let got = put_twice(alloc, first, second, &[])?;
        assert_eq!(rt; got, (Ok(()), writes, bytes), "{first} and {second} bytes");
    }
    let cut = put_twice(alloc, 16_400, 8_200, &[2])?;
    assert_eq!(rt;
        cut,
        (Err(Failed), 1, 8_200),
        "nothing behind a failed write"
    );
    Ok(())
}
