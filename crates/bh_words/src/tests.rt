//! Words of a form that no command has.
use crate::forms::Form;
use crate::reader::read;
use std::alloc::Global;
use std::test::Fail;

/// The words of a text, which `|` keeps apart.
fn list_of(alloc: Global, text: &str) -> Result<Vec<String>, Fail> {
    let mut words = Vec::new(alloc);
    for word in text.split('|') {
        words.push(String::from_str(alloc, word)?)?;
    }
    Ok(words)
}

/// A form with options, a switch and a word of its own, as later commands have it.
const HEADED: Form = Form {
    options: &["part", "scheme"],
    switches: &["to-head"],
    own: Some("PORT"),
};

/// What words of that form set: the scheme, the word, and whether the switch is on.
fn headed(alloc: Global, words: &str) -> Result<Option<(bool, bool, bool)>, Fail> {
    match read(alloc, &list_of(alloc, words)?, HEADED)? {
        Some(matches) => {
            let http = matches.get_str("scheme") == Some("http");
            let port = matches.get_str("PORT") == Some("80");
            Ok(Some((http, port, matches.get_flag("to-head"))))
        }
        None => Ok(None),
    }
}

/// Words of that form, with what they set.
const HEADED_ROWS: [(&str, Option<(bool, bool, bool)>); 12] = [
    ("80", Some((false, true, false))),
    ("81", Some((false, false, false))),
    ("--to-head|80", Some((false, true, true))),
    ("80|--to-head|--scheme=http", Some((true, true, true))),
    ("--scheme|http|80", Some((true, true, false))),
    ("80|--scheme=http|--to-head", Some((true, true, true))),
    ("--scheme|http|80|--scheme=http", None),
    ("80|--to-head|--to-head", None),
    ("--to-head|80|--to-head", None),
    ("80|--to-head=true", None),
    ("--scheme|--to-head|80", None),
    ("--to-head", None),
];

#[test]
fn switches_and_words_stand_anywhere(rt: HostRuntime) -> Result<(), Fail> {
    for (words, want) in HEADED_ROWS {
        assert_eq!(rt; headed(rt.alloc(), words)?, want, "{words}");
    }
    Ok(())
}
