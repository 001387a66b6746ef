//! Classes of bytes, and the texts of errors.
use bh_base::{
    Failed, NoMemory, is_authority, is_path, is_scheme, is_text_value, is_token, is_value, lower,
};
use std::test::Fail;

#[test]
fn bytes_belong_to_their_classes(rt: HostRuntime) {
    let rows = [
        (b'a', true, true, true, true, true),
        (b'Z', true, true, true, true, true),
        (b'7', true, true, true, true, true),
        (b'-', true, true, true, true, true),
        (b'!', true, false, true, true, true),
        (b'|', true, false, false, false, true),
        (b'#', true, false, false, false, true),
        (b':', false, false, true, true, true),
        (b'[', false, false, true, false, true),
        (b'@', false, false, false, true, true),
        (b'/', false, false, false, true, true),
        (b'"', false, false, false, false, true),
        (b' ', false, false, false, false, true),
        (0x80, false, false, false, false, true),
        (b'\n', false, false, false, false, false),
        (b'\r', false, false, false, false, false),
        (0, false, false, false, false, false),
    ];
    for (byte, token, scheme, authority, path, value) in rows {
        assert_eq!(rt; is_token(byte), token, "token {byte}");
        assert_eq!(rt; is_scheme(byte), scheme, "scheme {byte}");
        assert_eq!(rt; is_authority(byte), authority, "authority {byte}");
        assert_eq!(rt; is_path(byte), path, "path {byte}");
        assert_eq!(rt; is_value(byte), value, "value {byte}");
    }
}

#[test]
fn bytes_are_text_or_not(rt: HostRuntime) {
    for (byte, want) in [
        (b'\t', true),
        (0x1f, false),
        (b' ', true),
        (b'~', true),
        (0x7f, false),
        (0x80, true),
        (0xff, true),
        (b'\r', false),
    ] {
        assert_eq!(rt; is_text_value(byte), want, "text {byte}");
    }
}

#[test]
fn letters_become_lower_case(rt: HostRuntime) {
    for (byte, want) in [
        (b'A', b'a'),
        (b'Z', b'z'),
        (b'q', b'q'),
        (b'@', b'@'),
        (b'[', b'['),
        (0xc0, 0xc0),
    ] {
        assert_eq!(rt; lower(byte), want, "at {byte}");
    }
}

#[test]
fn the_errors_have_texts(rt: HostRuntime) -> Result<(), Fail> {
    let alloc = rt.alloc();
    assert_eq!(rt;
        format!(in alloc; "{Failed}")?.as_str(),
        "a call on the outside failed"
    );
    assert_eq!(rt; format!(in alloc; "{NoMemory}")?.as_str(), "memory ran out");
    Ok(())
}
