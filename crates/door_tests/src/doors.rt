//! Sinks, doors and shelves in memory with their counted faults, and ports that count and add.
ghost use Rattle.std.specs.Prelude.{◌≡◌, IfOk, false};
ghost use Rattle.bh_base.specs.MemDoors.{IsFresh};

use bh_base::{
    Door, Failed, MemDoor, MemPort, MemShelf, MemSink, NoMemory, Port, Shelf, Sink, Source,
    SurePort, write_all,
};
use std::alloc::Global;

fn write_to(sink: &mut MemSink, piece: &[u8]) -> Result<usize, Failed> {
    sink.write(piece)
}

/// The answers of writes to a sink with room for three bytes, and what was sent.
fn seen_of_sink(alloc: Global) -> Result<([Result<usize, Failed>; 5], Vec<u8>), NoMemory> {
    let bad_writes = [2].to_vec(alloc)?;
    let mut sink = MemSink::new(alloc, bad_writes, 3)?;
    let answers = [
        write_to(&mut sink, b"ab"),
        write_to(&mut sink, b"cd"),
        write_to(&mut sink, b"cd"),
        write_to(&mut sink, b"d"),
        write_to(&mut sink, b""),
    ];
    Ok((answers, sink.sent().to_vec(alloc)?))
}

#[test]
fn a_sink_takes_what_its_room_has(rt: HostRuntime) -> Result<(), NoMemory> {
    let (answers, sent) = seen_of_sink(rt.alloc())?;
    assert_eq!(rt; answers, [Ok(2), Err(Failed), Ok(1), Err(Failed), Ok(0)]);
    assert_eq!(rt; sent.as_slice(), b"abc".as_slice());
    Ok(())
}

fn read_from(port: &mut SurePort, buf: &mut [u8]) -> Result<usize, Failed> {
    port.read(buf)
}

fn write_into(port: &mut SurePort, piece: &[u8]) -> Result<(), Failed> {
    write_all(port, piece)
}

/// The answers of a read without room and of reads with room for three bytes, and what the buffer held behind each of these.
fn sure_reads(alloc: Global) -> Result<([Result<usize, Failed>; 5], [[u8; 3]; 4]), NoMemory> {
    let mut port = SurePort::new(alloc, b"abcde".to_vec(alloc)?)?;
    let mut buf = [0; 3];
    let none = read_from(&mut port, &mut []);
    let (first, a) = (read_from(&mut port, &mut buf), buf);
    let (second, b) = (read_from(&mut port, &mut buf), buf);
    let (third, c) = (read_from(&mut port, &mut buf), buf);
    let (fourth, d) = (read_from(&mut port, &mut buf), buf);
    Ok(([none, first, second, third, fourth], [a, b, c, d]))
}

#[test]
fn a_sure_port_gives_its_bytes_and_then_the_end(rt: HostRuntime) -> Result<(), NoMemory> {
    let (answers, buffers) = sure_reads(rt.alloc())?;
    assert_eq!(rt; answers, [Ok(0), Ok(3), Ok(2), Ok(0), Ok(0)]);
    assert_eq!(rt; buffers, [*b"abc", *b"dec", *b"dec", *b"dec"]);
    Ok(())
}

/// The count and the sum of the bytes written, at first and behind each of three pieces.
fn sure_writes(alloc: Global) -> Result<[(u64, u64); 4], NoMemory> {
    let mut port = SurePort::new(alloc, Vec::new(alloc))?;
    let before = (port.written(), port.sum());
    let _ = write_into(&mut port, &[250, 10]);
    let two = (port.written(), port.sum());
    let _ = write_into(&mut port, b"");
    let same = (port.written(), port.sum());
    let _ = write_into(&mut port, &[1, 2, 3]);
    Ok([before, two, same, (port.written(), port.sum())])
}

#[test]
fn a_sure_port_counts_and_adds_what_is_written(rt: HostRuntime) -> Result<(), NoMemory> {
    let counts = sure_writes(rt.alloc())?;
    assert_eq!(rt; counts, [(0, 0), (2, 260), (2, 260), (5, 266)]);
    Ok(())
}

/// A port with this input and room for five bytes.
fn port_over(alloc: Global, text: &[u8]) -> Result<MemPort, NoMemory>
    ensures { IfOk result IsFresh }
{
    let input = text.to_vec(alloc)?;
    let none = Vec::new(alloc);
    MemPort::new(alloc, input, none, Vec::new(alloc), Vec::new(alloc), 5, 9)
}

/// Sends back what one read of a link gives.
fn echo<L: Port>(link: &mut L) {
    let mut buf = [0; 8];
    if let Ok(count) = link.read(&mut buf) {
        let _ = write_all(link, &buf[..count]);
    }
}

/// Accepts a link, sends back what one read of it gives, and closes it.
fn serves<D: Door>(door: &mut D) -> bool
    requires { D.is_out door.old ≡ false }
    ensures { D.is_out door.new ≡ false }
{
    match door.accept() {
        Ok(mut link) => {
            echo(&mut link);
            door.close(link);
            true
        }
        Err(_) => false,
    }
}

/// Whether a door listens, and then serves; and what was sent over each link that was closed, behind a bar.
fn seen_of_door(alloc: Global) -> Result<(Result<(), Failed>, [bool; 4], Vec<u8>), NoMemory> {
    let links = vec![in alloc; port_over(alloc, b"first")?, port_over(alloc, b"second")?]?;
    let bad_accepts = [2].to_vec(alloc)?;
    let mut door = MemDoor::new(alloc, links, bad_accepts)?;
    let listens = door.listen(80);
    let served = [
        serves(&mut door),
        serves(&mut door),
        serves(&mut door),
        serves(&mut door),
    ];
    Ok((listens, served, sent_over(alloc, &door)?))
}

fn sent_over(alloc: Global, door: &MemDoor) -> Result<Vec<u8>, NoMemory> {
    let mut text = Vec::new(alloc);
    for i in 0..door.closed() {
        text.extend_from_slice(b"|")?;
        text.extend_from_slice(door.link(i).sent())?;
    }
    Ok(text)
}

#[test]
fn a_door_hands_out_its_links_in_order(rt: HostRuntime) -> Result<(), NoMemory> {
    let (listens, served, sent) = seen_of_door(rt.alloc())?;
    assert_eq!(rt; (listens, served), (Ok(()), [true, false, true, false]));
    assert_eq!(rt; sent.as_slice(), b"|first|secon".as_slice());
    Ok(())
}

fn find_in<F: Shelf>(shelf: &mut F, name: &str) -> Result<F::Item, Failed> {
    shelf.find(name)
}

fn read(port: &mut MemPort, buf: &mut [u8]) -> Result<usize, Failed> {
    port.read(buf)
}

/// The first byte of an item of this name, where the shelf hands one out.
fn first_byte(shelf: &mut MemShelf, name: &str) -> Option<u8> {
    let mut item = find_in(shelf, name).ok()?;
    let mut buf = [0; 1];
    match read(&mut item, &mut buf) {
        Ok(_) => Some(buf[0]),
        Err(_) => None,
    }
}

fn seen_of_shelf(alloc: Global) -> Result<[Option<u8>; 6], NoMemory> {
    let names = vec![in alloc;
        String::from_str(alloc, "a")?,
        String::from_str(alloc, "b")?,
        String::from_str(alloc, "a")?,
    ]?;
    let contents = vec![in alloc;
        port_over(alloc, b"1")?,
        port_over(alloc, b"2")?,
        port_over(alloc, b"3")?,
    ]?;
    let bad_finds = [3].to_vec(alloc)?;
    let mut shelf = MemShelf::new(alloc, names, contents, bad_finds)?;
    Ok([
        first_byte(&mut shelf, "b"),
        first_byte(&mut shelf, "x"),
        first_byte(&mut shelf, "a"),
        first_byte(&mut shelf, "a"),
        first_byte(&mut shelf, "a"),
        first_byte(&mut shelf, "a"),
    ])
}

#[test]
fn a_shelf_hands_out_items_by_name(rt: HostRuntime) -> Result<(), NoMemory> {
    let found = seen_of_shelf(rt.alloc())?;
    let wanted = [Some(b'2'), None, None, Some(b'1'), Some(b'3'), None];
    assert_eq!(rt; found, wanted);
    Ok(())
}
