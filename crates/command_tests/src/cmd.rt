//! Worked inputs of the commands with their answers.
ghost use Rattle.std.specs.Prelude.{◌≡◌, false};

use bh_base::{MemDoor, MemPort, MemShelf, MemSink, Source};
use bh_cmd::{Exit, TrialPort, run};
use bh_model::{Cause, Kind, Omitted, Part, Refusal, Summary};
use std::alloc::Global;
use std::test::Fail;

/// A known-length GET of https for the path /, up to its header section.
const GET: &[u8] = b"\x00\x03GET\x05https\x00\x01/";

/// The smallest request, and its canonical text.
pub(crate) const SMALLEST: &[u8] = b"\x00\x03GET\x05https\x00\x01/\x00";

pub(crate) const SMALLEST_CANON: &[u8] = b"\x02\x03GET\x05https\x00\x01/\x00\x00\x00";

/// The most that one of these inputs has, and more than its canonical text.
const ROOM: usize = 70_000;

/// More than a report's line has.
const ROOM_OF_ERRORS: usize = 200;

/// What a run gives: its exit, and the port and the sink of errors behind it.
#[derive(Drop)]
pub(crate) struct Outcome {
    pub(crate) exit: Exit,
    pub(crate) port: MemPort,
    pub(crate) errs: MemSink,
}

/// The words of a text, which `|` keeps apart.
fn words_of(alloc: Global, text: &str) -> Result<Vec<String>, Fail> {
    let mut words = Vec::new(alloc);
    for word in text.split('|') {
        words.push(String::from_str(alloc, word)?)?;
    }
    Ok(words)
}

/// The exit of a run. Alone in a function its contract proves fast.
fn exit_of(
    alloc: Global,
    words: &[String],
    port: &mut MemPort,
    errs: &mut MemSink,
    door: &mut MemDoor,
    shelf: &mut MemShelf,
) -> Exit
    requires { door.old.out ≡ false }
{
    run(alloc, words, port, errs, door, shelf)
}

/// A run of the words over this port, with this sink of errors.
fn run_over(alloc: Global, words: &str, port: MemPort, errs: MemSink) -> Result<Outcome, Fail> {
    let words = words_of(alloc, words)?;
    let mut door = MemDoor::new(alloc, Vec::new(alloc), Vec::new(alloc))?;
    let mut shelf = MemShelf::new(alloc, Vec::new(alloc), Vec::new(alloc), Vec::new(alloc))?;
    let (mut port, mut errs) = (port, errs);
    let exit = exit_of(alloc, &words, &mut port, &mut errs, &mut door, &mut shelf);
    Ok(Outcome { exit, port, errs })
}

/// A run of the words over a port with this input, which gives and takes pieces of these sizes and fails at these calls.
pub(crate) fn outcome_of(
    alloc: Global,
    words: &str,
    input: Vec<u8>,
    pieces: Vec<usize>,
    bad_reads: Vec<u64>,
    bad_writes: Vec<u64>,
) -> Result<Outcome, Fail> {
    let port = MemPort::new(alloc, input, pieces, bad_reads, bad_writes, ROOM, ROOM)?;
    let errs = MemSink::new(alloc, Vec::new(alloc), ROOM_OF_ERRORS)?;
    run_over(alloc, words, port, errs)
}

/// A run of `canon` over a port that gives all at once, or one byte at a time.
fn canon(alloc: Global, input: &[u8], cut: bool) -> Result<Outcome, Fail> {
    let pieces = if cut {
        vec![in alloc; 1; 200]?
    } else {
        Vec::new(alloc)
    };
    outcome_of(
        alloc,
        "canon",
        input.to_vec(alloc)?,
        pieces,
        Vec::new(alloc),
        Vec::new(alloc),
    )
}

/// The two lists, one behind the other.
fn joined(alloc: Global, front: &[u8], back: &[u8]) -> Result<Vec<u8>, Fail> {
    let mut all = front.to_vec(alloc)?;
    all.extend_from_slice(back)?;
    Ok(all)
}

/// An input that is a message, and its canonical text.
struct Accepted {
    shows: &'static str,
    input: &'static [u8],
    output: &'static [u8],
    kind: Kind,
    lines: u64,
    content: u64,
    padding: u64,
    omitted: Omitted,
}

const ACCEPTED: [Accepted; 14] = [
    Accepted {
        shows: "content and trailer section may be left out",
        input: b"\x00\x03GET\x05https\x00\x01/\x00",
        output: b"\x02\x03GET\x05https\x00\x01/\x00\x00\x00",
        kind: Kind::Request,
        lines: 0,
        content: 0,
        padding: 0,
        omitted: Omitted::Both,
    },
    Accepted {
        shows: "padding is counted",
        input: b"\x00\x03GET\x05https\x00\x01/\x00\x00\x00\x00\x00\x00",
        output: b"\x02\x03GET\x05https\x00\x01/\x00\x00\x00",
        kind: Kind::Request,
        lines: 0,
        content: 0,
        padding: 3,
        omitted: Omitted::Nothing,
    },
    Accepted {
        shows: "upper-case names are read as lower case",
        input: b"\x00\x03GET\x05https\x00\x01/\x03\x01A\x00",
        output: b"\x02\x03GET\x05https\x00\x01/\x01a\x00\x00\x00\x00",
        kind: Kind::Request,
        lines: 1,
        content: 0,
        padding: 0,
        omitted: Omitted::Both,
    },
    Accepted {
        shows: "a pseudo-field may stand in the header section",
        input: b"\x00\x03GET\x05https\x00\x01/\x04\x02:b\x00",
        output: b"\x02\x03GET\x05https\x00\x01/\x02:b\x00\x00\x00\x00",
        kind: Kind::Request,
        lines: 1,
        content: 0,
        padding: 0,
        omitted: Omitted::Both,
    },
    Accepted {
        shows: "the trailer section may be left out",
        input: b"\x00\x03GET\x05https\x00\x01/\x00\x03abc",
        output: b"\x02\x03GET\x05https\x00\x01/\x00\x03abc\x00\x00",
        kind: Kind::Request,
        lines: 0,
        content: 3,
        padding: 0,
        omitted: Omitted::Trailers,
    },
    Accepted {
        shows: "lengths may have any width",
        input: b"\x00\x03GET\x05https\x00\x01/@\x08\x80\x00\x00\x01a@\x01x\xc0\x00\x00\x00\x00\x00\x00\x01y",
        output: b"\x02\x03GET\x05https\x00\x01/\x01a\x01x\x00\x01y\x00\x00",
        kind: Kind::Request,
        lines: 1,
        content: 1,
        padding: 0,
        omitted: Omitted::Trailers,
    },
    Accepted {
        shows: "fields, content, trailers and padding",
        input: b"\x00\x03GET\x05https\x00\x01/\x06\x01a\x00\x01b\x00\x02hi\x04\x01t\x01v\x00",
        output: b"\x02\x03GET\x05https\x00\x01/\x01a\x00\x01b\x00\x00\x02hi\x00\x01t\x01v\x00",
        kind: Kind::Request,
        lines: 3,
        content: 2,
        padding: 1,
        omitted: Omitted::Nothing,
    },
    Accepted {
        shows: "upper-case schemes are read as lower case",
        input: b"\x00\x03GET\x05HttpS\x00\x01/\x00",
        output: b"\x02\x03GET\x05https\x00\x01/\x00\x00\x00",
        kind: Kind::Request,
        lines: 0,
        content: 0,
        padding: 0,
        omitted: Omitted::Both,
    },
    Accepted {
        shows: "a framing number may have four bytes",
        input: b"\x80\x00\x00\x01\x40\xc8\x00",
        output: b"\x03\x40\xc8\x00\x00\x00",
        kind: Kind::Response,
        lines: 0,
        content: 0,
        padding: 0,
        omitted: Omitted::Both,
    },
    Accepted {
        shows: "a response behind an interim response",
        input: b"\x01\x40\x67\x00\x40\xc8\x00",
        output: b"\x03\x40\x67\x00\x40\xc8\x00\x00\x00",
        kind: Kind::Response,
        lines: 0,
        content: 0,
        padding: 0,
        omitted: Omitted::Both,
    },
    Accepted {
        shows: "a request of indeterminate length",
        input: b"\x02\x04POST\x05https\x00\x01/\x00\x03abc\x00",
        output: b"\x02\x04POST\x05https\x00\x01/\x00\x03abc\x00\x00",
        kind: Kind::Request,
        lines: 0,
        content: 3,
        padding: 0,
        omitted: Omitted::Trailers,
    },
    Accepted {
        shows: "chunks are joined",
        input: b"\x02\x04POST\x05https\x00\x01/\x00\x01a\x40\x02bc\x00\x00\x00",
        output: b"\x02\x04POST\x05https\x00\x01/\x00\x03abc\x00\x00",
        kind: Kind::Request,
        lines: 0,
        content: 3,
        padding: 1,
        omitted: Omitted::Nothing,
    },
    Accepted {
        shows: "a response of indeterminate length with all its parts",
        input: b"\x03\x40\x67\x01l\x01x\x00\x40d\x00\x40\xc8\x01A\x00\x00\x02hi\x00\x01t\x01v\x00\x00\x00",
        output: b"\x03\x40\x67\x01l\x01x\x00\x40d\x00\x40\xc8\x01a\x00\x00\x02hi\x00\x01t\x01v\x00",
        kind: Kind::Response,
        lines: 3,
        content: 2,
        padding: 2,
        omitted: Omitted::Nothing,
    },
    Accepted {
        shows: "a known-length response with all its parts",
        input: b"\x01\x40\x67\x04\x01l\x01x\x40\xc8\x03\x01A\x00\x02hi\x04\x01t\x01v\x00",
        output: b"\x03\x40\x67\x01l\x01x\x00\x40\xc8\x01a\x00\x00\x02hi\x00\x01t\x01v\x00",
        kind: Kind::Response,
        lines: 3,
        content: 2,
        padding: 1,
        omitted: Omitted::Nothing,
    },
];

/// Whether a run of `canon` over this input ends so, and sends this.
fn ends_so(alloc: Global, input: &[u8], cut: bool, exit: Exit, sent: &[u8]) -> Result<bool, Fail> {
    let got = canon(alloc, input, cut)?;
    Ok(got.exit == exit && got.port.sent() == sent)
}

#[test]
fn messages_give_their_canonical_text(rt: HostRuntime) -> Result<(), Fail> {
    let alloc = rt.alloc();
    for row in &ACCEPTED {
        let exit = Exit::Done(Some(Summary {
            kind: row.kind,
            bytes: row.input.len() as u64,
            lines: row.lines,
            content: row.content,
            padding: row.padding,
            omitted: row.omitted,
        }));
        for cut in [false, true] {
            assert!(rt;
                ends_so(alloc, row.input, cut, exit, row.output)?,
                "{}",
                row.shows
            );
        }
    }
    Ok(())
}

/// The canonical text of a GET up to and with its empty header section, and the same of a POST.
pub(crate) const GET_HEAD: &[u8] = b"\x02\x03GET\x05https\x00\x01/\x00";

const POST_HEAD: &[u8] = b"\x02\x04POST\x05https\x00\x01/\x00";

/// An input that is refused, its refusal, and what is sent before.
const REFUSED: [(&str, &[u8], Refusal, &[u8]); 22] = [
    (
        "nothing",
        b"",
        Refusal::Ended {
            at: 0,
            part: Part::Framing,
        },
        b"",
    ),
    (
        "a header section can't be left out",
        GET,
        Refusal::Ended {
            at: 14,
            part: Part::SectionLength,
        },
        b"",
    ),
    (
        "padding is zero",
        b"\x00\x03GET\x05https\x00\x01/\x00\x00\x00\x00\x01",
        Refusal::Dead {
            at: 18,
            part: Part::Padding,
        },
        b"\x02\x03GET\x05https\x00\x01/\x00\x00\x00",
    ),
    (
        "no section has 1 byte",
        b"\x00\x03GET\x05https\x00\x01/\x01",
        Refusal::Dead {
            at: 14,
            part: Part::SectionLength,
        },
        b"",
    ),
    (
        "the end inside an integer",
        b"\x00\x03GET\x05https\x00\x01/\x00\x40",
        Refusal::Ended {
            at: 16,
            part: Part::ContentLength,
        },
        GET_HEAD,
    ),
    (
        "no section has 2 bytes",
        b"\x00\x03GET\x05https\x00\x01/\x40\x02",
        Refusal::Dead {
            at: 15,
            part: Part::SectionLength,
        },
        b"",
    ),
    (
        "no line has 1 byte",
        b"\x00\x03GET\x05https\x00\x01/\x05\x01a\x01b",
        Refusal::Dead {
            at: 17,
            part: Part::ValueLength,
        },
        b"",
    ),
    (
        "a framing number over 255",
        b"\x41",
        Refusal::Dead {
            at: 0,
            part: Part::Framing,
        },
        b"",
    ),
    (
        "the chunks don't end",
        b"\x02\x04POST\x05https\x00\x01/\x00\x03abc",
        Refusal::Ended {
            at: 20,
            part: Part::ChunkLength,
        },
        POST_HEAD,
    ),
    (
        ":status is no field",
        b"\x00\x03GET\x05https\x00\x01/\x0b\x07:status\x02ab",
        Refusal::Dead {
            at: 22,
            part: Part::Name,
        },
        b"",
    ),
    (
        "a framing number of 0 in eight bytes",
        b"\xc0\x00\x00\x00\x00\x00\x00\x00",
        Refusal::Ended {
            at: 8,
            part: Part::MethodLength,
        },
        b"",
    ),
    (
        "no method is empty",
        b"\x00\x00",
        Refusal::Dead {
            at: 1,
            part: Part::MethodLength,
        },
        b"",
    ),
    (
        "a path of https isn't empty",
        b"\x00\x03GET\x05https\x00\x00",
        Refusal::Dead {
            at: 12,
            part: Part::PathLength,
        },
        b"",
    ),
    (
        "the star is for OPTIONS",
        b"\x00\x03GET\x05https\x00\x01*",
        Refusal::Dead {
            at: 13,
            part: Part::Path,
        },
        b"",
    ),
    (
        "a value doesn't begin with a blank",
        b"\x00\x03GET\x05https\x00\x01/\x05\x01a\x02 b",
        Refusal::Dead {
            at: 18,
            part: Part::Value,
        },
        b"",
    ),
    (
        "a value doesn't end in a blank",
        b"\x00\x03GET\x05https\x00\x01/\x05\x01a\x02b ",
        Refusal::Dead {
            at: 19,
            part: Part::Value,
        },
        b"",
    ),
    (
        "a pseudo-field behind a field",
        b"\x00\x03GET\x05https\x00\x01/\x07\x01a\x00\x02:b\x00",
        Refusal::Dead {
            at: 19,
            part: Part::Name,
        },
        b"",
    ),
    (
        "a name of a colon alone",
        b"\x00\x03GET\x05https\x00\x01/\x03\x01:\x00",
        Refusal::Dead {
            at: 16,
            part: Part::Name,
        },
        b"",
    ),
    (
        "the end inside the content",
        b"\x00\x03GET\x05https\x00\x01/\x00\x03a",
        Refusal::Ended {
            at: 17,
            part: Part::Content,
        },
        GET_HEAD,
    ),
    (
        "a pseudo-field in the trailer section",
        b"\x00\x03GET\x05https\x00\x01/\x00\x00\x04\x02:b\x00",
        Refusal::Dead {
            at: 18,
            part: Part::Name,
        },
        GET_HEAD,
    ),
    (
        "padding of a response is zero",
        b"\x01\x40\xc8\x00\x00\x00\x01",
        Refusal::Dead {
            at: 6,
            part: Part::Padding,
        },
        b"\x03\x40\xc8\x00\x00\x00",
    ),
    (
        "a status of 600",
        b"\x03\x42\x58",
        Refusal::Dead {
            at: 2,
            part: Part::Status,
        },
        b"",
    ),
];

#[test]
fn the_first_refused_byte_is_named(rt: HostRuntime) -> Result<(), Fail> {
    let alloc = rt.alloc();
    for (shows, input, refusal, sent) in REFUSED {
        let exit = Exit::Refused(Cause::Binary(refusal));
        for cut in [false, true] {
            assert!(rt; ends_so(alloc, input, cut, exit, sent)?, "{shows}");
        }
    }
    Ok(())
}

#[test]
fn much_padding_is_read(rt: HostRuntime) -> Result<(), Fail> {
    let alloc = rt.alloc();
    let zeros = vec![in alloc; 0; 65_522]?;
    let input = joined(alloc, GET, &zeros)?;
    let exit = Exit::Done(Some(Summary {
        kind: Kind::Request,
        bytes: 65_536,
        lines: 0,
        content: 0,
        padding: 65_519,
        omitted: Omitted::Nothing,
    }));
    assert!(rt; ends_so(alloc, &input, false, exit, SMALLEST_CANON)?);
    Ok(())
}

/// Whether a run of `canon` over the smallest request, in pieces of one byte, ends so and sends this, where one read or one
/// write fails.
fn fails_so(
    alloc: Global,
    bad_reads: &[u64],
    bad_writes: &[u64],
    exit: Exit,
    sent: &[u8],
) -> Result<bool, Fail> {
    let got = outcome_of(
        alloc,
        "canon",
        SMALLEST.to_vec(alloc)?,
        vec![in alloc; 1; 20]?,
        bad_reads.to_vec(alloc)?,
        bad_writes.to_vec(alloc)?,
    )?;
    Ok(got.exit == exit && got.port.sent() == sent)
}

#[test]
fn each_read_may_fail(rt: HostRuntime) -> Result<(), Fail> {
    for k in 1..17 {
        // The head goes out behind the fifteenth.
        let sent = if k < 16 { b"".as_slice() } else { GET_HEAD };
        assert!(rt;
            fails_so(rt.alloc(), &[k], &[], Exit::ReadFault, sent)?,
            "read {k}"
        );
    }
    Ok(())
}

#[test]
fn each_write_may_fail(rt: HostRuntime) -> Result<(), Fail> {
    for k in 1..18 {
        let sent = &SMALLEST_CANON[..k - 1];
        assert!(rt;
            fails_so(rt.alloc(), &[], &[k as u64], Exit::WriteFault, sent)?,
            "write {k}"
        );
    }
    Ok(())
}

/// The input of `trial` with 20,000 bytes of content.
fn trial_input(alloc: Global) -> Result<Vec<u8>, Fail> {
    let mut port = TrialPort::new(20_000);
    let mut piece = [0; 1000];
    let mut input = Vec::new(alloc);
    for _ in 0..100 {
        let Ok(count) = port.read(&mut piece) else {
            break;
        };
        input.extend_from_slice(&piece[..count])?;
    }
    Ok(input)
}

#[test]
fn whole_chunks_go_out_before_a_read_that_fails(rt: HostRuntime) -> Result<(), Fail> {
    let alloc = rt.alloc();
    let input = trial_input(alloc)?;
    let none = Vec::new(alloc);
    let third = [3].to_vec(alloc)?;
    let got = outcome_of(
        alloc,
        "canon",
        input.as_slice().to_vec(alloc)?,
        none,
        third,
        Vec::new(alloc),
    )?;
    let none = Vec::new(alloc);
    let whole = outcome_of(
        alloc,
        "canon",
        input,
        Vec::new(alloc),
        none,
        Vec::new(alloc),
    )?;
    // The head has 35 bytes, and the length of a chunk two.
    let sent = got.port.sent();
    assert_eq!(rt; (got.exit, sent.len()), (Exit::ReadFault, 35 + 2 + 8192));
    assert!(rt; whole.port.sent().starts_with(sent));
    Ok(())
}

/// How many reads the port has logged.
fn reads_of(port: &MemPort) -> usize {
    let mut reads: usize = 0;
    for i in 0..port.calls() {
        if port.call(i).0 {
            reads = reads.saturating_add(1);
        }
    }
    reads
}

#[test]
fn the_read_that_shows_a_refusal_is_the_last(rt: HostRuntime) -> Result<(), Fail> {
    let input = b"\x00\x03GET\x05https\x00\x01/\x00\x00\x00\x00\x01\x00\x00";
    let got = canon(rt.alloc(), input, true)?;
    let refusal = Refusal::Dead {
        at: 18,
        part: Part::Padding,
    };
    let exit = Exit::Refused(Cause::Binary(refusal));
    assert_eq!(rt; (got.exit, reads_of(&got.port)), (exit, 19));
    Ok(())
}

/// Whether `canon` of nothing is refused, and so much of its report sent, where the errors go to a sink with so much room that
/// fails at these writes.
fn is_cut(alloc: Global, bad: &[u64], room: usize, sent: &[u8]) -> Result<bool, Fail> {
    let input = Vec::new(alloc);
    let pieces = Vec::new(alloc);
    let bad_reads = Vec::new(alloc);
    let port = MemPort::new(alloc, input, pieces, bad_reads, Vec::new(alloc), 1, 9)?;
    let errs = MemSink::new(alloc, bad.to_vec(alloc)?, room)?;
    let got = run_over(alloc, "canon", port, errs)?;
    Ok(got.exit.status() == 1 && got.errs.sent() == sent)
}

#[test]
fn a_report_that_fails_changes_no_exit(rt: HostRuntime) -> Result<(), Fail> {
    let alloc = rt.alloc();
    assert!(rt; is_cut(alloc, &[1], 200, b"")?);
    assert!(rt; is_cut(alloc, &[], 7, b"refused")?);
    Ok(())
}

#[test]
fn exits_have_their_statuses(rt: HostRuntime) {
    let too_long = Cause::Binary(Refusal::TooLong { at: 9 });
    let rows = [
        (Exit::Done(None), 0),
        (Exit::Refused(too_long), 1),
        (Exit::Usage, 2),
        (Exit::ReadFault, 3),
        (Exit::WriteFault, 4),
        (Exit::NoMemory, 5),
        (Exit::DoorFault, 6),
        (Exit::ShelfFault, 7),
    ];
    for (exit, status) in rows {
        assert_eq!(rt; exit.status(), status);
    }
}
