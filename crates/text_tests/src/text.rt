//! The text of each report.
use bh_model::{Cause, H1Why, Kind, NoForm, Omitted, Part, Refusal, Summary};
use bh_text::{Report, Trial, write_line, write_number, write_trial};

/// The most of everything.
const MOST: Summary = Summary {
    kind: Kind::Response,
    bytes: 18_446_744_073_709_551_615,
    lines: 18_446_744_073_709_551_615,
    content: 18_446_744_073_709_551_615,
    padding: 18_446_744_073_709_551_615,
    omitted: Omitted::Trailers,
};

const SMALLEST: Summary = Summary {
    kind: Kind::Request,
    bytes: 15,
    lines: 0,
    content: 0,
    padding: 0,
    omitted: Omitted::Both,
};

const ROWS: [(Report, &str); 18] = [
    (
        Report::Done(SMALLEST),
        "done kind=request bytes=15 lines=0 content=0 padding=0 omitted=both\n",
    ),
    (
        Report::Done(MOST),
        "done kind=response bytes=18446744073709551615 lines=18446744073709551615 content=18446744073709551615 \
         padding=18446744073709551615 omitted=trailers\n",
    ),
    (Report::Links(10), "done links=10\n"),
    (Report::Plain, "done\n"),
    (
        Report::Refused(Cause::Binary(Refusal::Dead {
            at: 18,
            part: Part::Padding,
        })),
        "refused dead at=18 part=padding\n",
    ),
    (
        Report::Refused(Cause::Binary(Refusal::Limit {
            at: 2,
            part: Part::Status,
        })),
        "refused limit at=2 part=status\n",
    ),
    (
        Report::Refused(Cause::Binary(Refusal::Ended {
            at: 0,
            part: Part::Framing,
        })),
        "refused ended at=0 part=framing\n",
    ),
    (
        Report::Refused(Cause::Binary(Refusal::TooLong {
            at: 1_099_511_627_776,
        })),
        "refused too-long at=1099511627776\n",
    ),
    (
        Report::Refused(Cause::Http1(H1Why::ChunkLineLimit)),
        "refused http1 chunk-line-limit\n",
    ),
    (
        Report::Refused(Cause::Form(NoForm::Pseudo)),
        "refused no-form pseudo\n",
    ),
    (
        Report::Refused(Cause::Form(NoForm::LengthDiffers {
            field: 5,
            content: 3,
        })),
        "refused no-form length-differs field=5 content=3\n",
    ),
    (Report::Body(H1Why::ChunkEnd), "refused body chunk-end\n"),
    (Report::Usage, "usage: bhttp COMMAND [OPTIONS]\n"),
    (Report::ReadFault, "fault read\n"),
    (Report::WriteFault, "fault write\n"),
    (Report::NoMemory, "no memory\n"),
    (Report::DoorFault, "fault door\n"),
    (Report::ShelfFault, "fault shelf\n"),
];

#[test]
fn reports_have_their_texts(rt: HostRuntime) {
    for (what, text) in ROWS {
        let mut out = [0; 192];
        let n = write_line(&what, &mut out);
        assert_eq!(rt; &out[..n], text.as_bytes(), "{text}");
    }
}

#[test]
fn a_trial_has_its_line(rt: HostRuntime) {
    let trial = Trial {
        content: 5,
        bytes_in: 40,
        bytes_out: 39,
        sum: 2609,
    };
    let mut out = [0; 192];
    let n = write_trial(&trial, &mut out);
    assert_eq!(rt;
        &out[..n],
        b"trial content=5 in=40 out=39 sum=2609\n".as_slice()
    );
    let digits = write_number(67_108_864, &mut out);
    assert_eq!(rt; &out[..digits], b"67108864".as_slice());
}
