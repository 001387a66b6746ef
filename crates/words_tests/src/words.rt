//! Words and what they mean.
use bh_words::{Command, parse};
use h1_spec::Scheme1;
use std::alloc::Global;
use std::test::Fail;

/// The words of a text, which `|` keeps apart.
fn list_of(alloc: Global, text: &str) -> Result<Vec<String>, Fail> {
    let mut words = Vec::new(alloc);
    for word in text.split('|') {
        words.push(String::from_str(alloc, word)?)?;
    }
    Ok(words)
}

/// What words mean: `canon`, `check` or `show` with its limits; `from-http1` and `to-http1` with their part and input limits, the scheme
/// of the first, and whether a response answers HEAD; `trial` with its number; or no command.
#[derive(Clone, Copy, Debug, PartialEq, Eq)]
enum Meant {
    Canon(u64, u64, u64, u64),
    Check(u64, u64, u64, u64),
    Show(u64, u64, u64, u64),
    From(u64, u64, Scheme1, bool),
    Into(u64, u64, bool),
    Trial(u64),
    Nothing,
}

/// What a command is.
fn value_of(command: &Command) -> Meant {
    match command {
        Command::Canon(l) => Meant::Canon(l.part(), l.section(), l.interims(), l.input()),
        Command::Check(l) => Meant::Check(l.part(), l.section(), l.interims(), l.input()),
        Command::Show(l) => Meant::Show(l.part(), l.section(), l.interims(), l.input()),
        Command::FromHttp1 {
            limits: l,
            scheme,
            to_head,
        } => Meant::From(l.part(), l.input(), *scheme, *to_head),
        Command::ToHttp1 { limits: l, to_head } => Meant::Into(l.part(), l.input(), *to_head),
        Command::Trial(n) => Meant::Trial(*n),
    }
}

/// What the words of a text mean.
fn meaning(alloc: Global, text: &str) -> Result<Meant, Fail> {
    match parse(alloc, &list_of(alloc, text)?)? {
        Some(command) => Ok(value_of(&command)),
        None => Ok(Meant::Nothing),
    }
}

/// Words, and what they mean.
const ROWS: [(&str, Meant); 33] = [
    ("canon", Meant::Canon(8192, 65_536, 16, 1_099_511_627_776)),
    (
        "canon|--part|16",
        Meant::Canon(16, 65_536, 16, 1_099_511_627_776),
    ),
    (
        "canon|--part=16",
        Meant::Canon(16, 65_536, 16, 1_099_511_627_776),
    ),
    (
        "canon|--part|65535",
        Meant::Canon(65_535, 65_536, 16, 1_099_511_627_776),
    ),
    (
        "canon|--part=65535",
        Meant::Canon(65_535, 65_536, 16, 1_099_511_627_776),
    ),
    (
        "canon|--section|16",
        Meant::Canon(8192, 16, 16, 1_099_511_627_776),
    ),
    (
        "canon|--section=1048576",
        Meant::Canon(8192, 1_048_576, 16, 1_099_511_627_776),
    ),
    (
        "canon|--interims|0",
        Meant::Canon(8192, 65_536, 0, 1_099_511_627_776),
    ),
    (
        "canon|--interims=255",
        Meant::Canon(8192, 65_536, 255, 1_099_511_627_776),
    ),
    ("canon|--input|1", Meant::Canon(8192, 65_536, 16, 1)),
    (
        "canon|--input=1099511627776",
        Meant::Canon(8192, 65_536, 16, 1_099_511_627_776),
    ),
    (
        "canon|--part=0000000000016",
        Meant::Canon(16, 65_536, 16, 1_099_511_627_776),
    ),
    (
        "canon|--input|0000000000001",
        Meant::Canon(8192, 65_536, 16, 1),
    ),
    (
        "canon|--part=16|--interims|0",
        Meant::Canon(16, 65_536, 0, 1_099_511_627_776),
    ),
    (
        "canon|--interims|0|--part=16",
        Meant::Canon(16, 65_536, 0, 1_099_511_627_776),
    ),
    (
        "canon|--input|4|--interims=3|--section|17|--part=16",
        Meant::Canon(16, 17, 3, 4),
    ),
    ("check", Meant::Check(8192, 65_536, 16, 1_099_511_627_776)),
    ("check|--part=16|--input|4", Meant::Check(16, 65_536, 16, 4)),
    ("show", Meant::Show(8192, 65_536, 16, 1_099_511_627_776)),
    (
        "show|--interims=0|--section|17",
        Meant::Show(8192, 17, 0, 1_099_511_627_776),
    ),
    (
        "from-http1",
        Meant::From(8192, 1_099_511_627_776, Scheme1::Https, false),
    ),
    (
        "from-http1|--scheme|http",
        Meant::From(8192, 1_099_511_627_776, Scheme1::Http, false),
    ),
    (
        "from-http1|--scheme=http|--part|16",
        Meant::From(16, 1_099_511_627_776, Scheme1::Http, false),
    ),
    (
        "from-http1|--to-head|--scheme|https",
        Meant::From(8192, 1_099_511_627_776, Scheme1::Https, true),
    ),
    (
        "from-http1|--input=4|--scheme=https|--to-head",
        Meant::From(8192, 4, Scheme1::Https, true),
    ),
    (
        "from-http1|--to-head",
        Meant::From(8192, 1_099_511_627_776, Scheme1::Https, true),
    ),
    ("to-http1", Meant::Into(8192, 1_099_511_627_776, false)),
    (
        "to-http1|--to-head",
        Meant::Into(8192, 1_099_511_627_776, true),
    ),
    (
        "to-http1|--part|16|--to-head",
        Meant::Into(16, 1_099_511_627_776, true),
    ),
    ("to-http1|--to-head|--input=4", Meant::Into(8192, 4, true)),
    ("trial|0", Meant::Trial(0)),
    ("trial|5", Meant::Trial(5)),
    ("trial|0000067108864", Meant::Trial(67_108_864)),
];

/// Words that mean nothing, a line each of these texts.
const WRONG: [&str; 21] = [
    "\n|\nCanon\ncanon \n--canon\n-\n--\n-h\n--help\nhelp\nchecks\nsho\nfrom-http\nserve|8080\ncanon|",
    "canon|16\ncanon|canon\ncanon|-\ncanon|--\ncanon|-h\ncanon|--help\ncanon|--version\ncanon|--par|16",
    "canon|--Part|16\ncanon|-part|16\ncanon|--parts|16\ncanon|--=16\ncanon|--part16\ncanon|--scheme=http",
    "canon|--part\ncanon|--part=\ncanon|--part|\ncanon|--part=16=\ncanon|--part=16=16\ncanon|--part==16",
    "canon|--part|-\ncanon|--part|--\ncanon|--part|-16\ncanon|--part|--section|16",
    "canon|--part|--section=16\ncanon|--part=-16\ncanon|--part=+16\ncanon|--part|+16\ncanon|--part|16 ",
    "canon|--part| 16\ncanon|--part|0x10\ncanon|--part|1_6\ncanon|--part=16.0",
    "canon|--part=00000000000016\ncanon|--input=00000000000001\ncanon|--input|10000000000000",
    "canon|--input|9999999999999\ncanon|--part=15\ncanon|--part|65536\ncanon|--section|15",
    "canon|--section=1048577\ncanon|--interims|256\ncanon|--input|0\ncanon|--input=1099511627777",
    "canon|--part|16|--part|16\ncanon|--part|16|--part=16\ncanon|--part=16|--part|16",
    "canon|--part=16|--part=16\ncanon|--section|16|--section|16\ncanon|--section|16|--section=16",
    "canon|--section=16|--section|16\ncanon|--section=16|--section=16\ncanon|--interims|16|--interims|16",
    "canon|--interims|16|--interims=16\ncanon|--interims=16|--interims|16",
    "canon|--interims=16|--interims=16\ncanon|--input|16|--input|16\ncanon|--input|16|--input=16",
    "canon|--input=16|--input|16\ncanon|--input=16|--input=16\ncanon|--part=16|--section|16|--part|17",
    "trial\ntrial|\ntrial|5|5\ntrial|-5\ntrial|+5\ntrial|--part|16|5\ntrial|5|--input=16\ntrial|67108865",
    "trial|00000000000005\ntrial|0x5\ntrial|five\ncanon|--to-head\ntrial|5|--to-head\nto-http1|--scheme=http",
    "from-http1|--scheme|ftp\nfrom-http1|--scheme=HTTP\nfrom-http1|--scheme|\nfrom-http1|--scheme=\nfrom-http1|--scheme",
    "from-http1|--scheme|http|--scheme|https\nfrom-http1|--scheme=http|--scheme=http\nfrom-http1|http\nfrom-http1|--to-head=1",
    "to-http1|--to-head|--to-head\nto-http1|--to-head=1\nto-http1|--to-head|1\nto-http1|16",
];

#[test]
fn words_mean_their_command(rt: HostRuntime) -> Result<(), Fail> {
    for (words, want) in ROWS {
        assert_eq!(rt; meaning(rt.alloc(), words)?, want, "{words}");
    }
    Ok(())
}

#[test]
fn wrong_words_mean_nothing(rt: HostRuntime) -> Result<(), Fail> {
    for text in WRONG {
        for words in text.split('\n') {
            assert_eq!(rt; meaning(rt.alloc(), words)?, Meant::Nothing, "{words}");
        }
    }
    Ok(())
}

#[test]
fn no_words_mean_nothing(rt: HostRuntime) -> Result<(), Fail> {
    assert!(rt; parse(rt.alloc(), &Vec::new(rt.alloc()))?.is_none());
    Ok(())
}
