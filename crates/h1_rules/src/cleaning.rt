//! The lines that are a message's own (RFC 9110, section 7.6.1), and one line for all cookies (RFC 9113, section 8.2.3).
ghost use Rattle.std.specs.Prelude.{◌≡◌, ◌≤◌, ◌<◌, ◌+◌, ◌++◌, ◌∷◌, [], None, Some, cond, false, All, IfOk, IsTrue, IsSomeAnd, codes, length, option_map};
ghost use Rattle.bh_spec.specs.Bytes.{lower};
ghost use Rattle.bh_model.specs.Lines.{lines_room, value_grown_by};
ghost use Rattle.h1_head.specs.Room.{room_in, count_in};
ghost use Rattle.h1_spec.specs.Cleaning.{values_of, is_among, connection_names, kept_names, without, crumbs, cookie as cookie_name, clean as cleaned_of, clean_trailers as trailers_of};
ghost use Rattle.h1_rules.specs.Own.{IsNamed, dropped_names, dropped_trailers, is_cookie as is_cookie_name, crumb_bytes, is_dropped as is_dropped_of, own_lines, IsAdding};

use crate::hops::Hops;
use crate::lines::value_from;
use bh_base::NoMemory;
use bh_model::Fields;
use std::alloc::Global;

/// A header section without the lines of its connection: `connection`, `proxy-connection`, `keep-alive`, `te`,
/// `transfer-encoding`, `upgrade`, and those that its hops name; `drop_host`: without `host` too. Of the cookie lines that are left
/// one stays, at the place of the first, with the values that aren't empty, joined with `; `.
pub fn clean(
    alloc: Global,
    fields: &Fields,
    hops: &Hops,
    drop_host: bool,
) -> Result<Fields, NoMemory>
    ensures lines { IfOk result (λ cleaned. cleaned.lines ≡ cleaned_of hops.now.names drop_host fields.now.lines) }
    ensures ended { IfOk result (λ cleaned. cleaned.making ≡ None) }
{
    let mut cleaned = emptied(alloc, fields)?;
    clean_into(fields, hops, drop_host, &mut cleaned);
    Ok(cleaned)
}

/// The same in the room of another section, which is cleared first. It takes no memory.
pub fn clean_into(fields: &Fields, hops: &Hops, drop_host: bool, to: &mut Fields)
    requires named { All IsNamed fields.now.lines }
    requires room { lines_room fields.now.lines ≤ room_in to.old }
    requires count { length fields.now.lines ≤ count_in to.old }
    ensures lines { to.new.lines ≡ cleaned_of hops.now.names drop_host fields.now.lines }
    ensures making { to.new.making ≡ None }
    ensures room { room_in to.new ≡ room_in to.old }
    ensures count { count_in to.new ≡ count_in to.old }
{
    to.clear();
    add_own(fields, hops, drop_host, to);
}

/// A trailer section without the lines of its connection, by the hops of the header section, and without `host` and
/// `content-length`.
pub fn clean_trailers(alloc: Global, fields: &Fields, hops: &Hops) -> Result<Fields, NoMemory>
    ensures lines { IfOk result (λ cleaned. cleaned.lines ≡ trailers_of hops.now.names fields.now.lines) }
    ensures ended { IfOk result (λ cleaned. cleaned.making ≡ None) }
{
    let mut cleaned = emptied(alloc, fields)?;
    clean_trailers_into(fields, hops, &mut cleaned);
    Ok(cleaned)
}

/// The same in the room of another section, which is cleared first. It takes no memory.
pub fn clean_trailers_into(fields: &Fields, hops: &Hops, to: &mut Fields)
    requires named { All IsNamed fields.now.lines }
    requires room { lines_room fields.now.lines ≤ room_in to.old }
    requires count { length fields.now.lines ≤ count_in to.old }
    ensures lines { to.new.lines ≡ trailers_of hops.now.names fields.now.lines }
    ensures making { to.new.making ≡ None }
    ensures room { room_in to.new ≡ room_in to.old }
    ensures count { count_in to.new ≡ count_in to.old }
{
    to.clear();
    add_trailers(fields, hops, to);
}

/// No line, with the room of these. Each of these has a name.
fn emptied(alloc: Global, fields: &Fields) -> Result<Fields, NoMemory>
    ensures named { IfOk result (λ room. All IsNamed fields.now.lines) }
    ensures spare { IfOk result (λ room. lines_room fields.now.lines ≤ room_in room) }
    ensures free { IfOk result (λ room. length fields.now.lines ≤ count_in room) }
{
    // No `Fields` has a line without a name, but its clauses don't say so.
    if !are_named(fields) {
        return Err(NoMemory);
    }
    let mut room = fields.copy(alloc)?;
    room.clear();
    Ok(room)
}

/// Whether each line has a name.
fn are_named(fields: &Fields) -> bool
    ensures { IsTrue result → All IsNamed fields.now.lines }
{
    for i in 0..fields.len() {
        let (name, _) = fields.line(i);
        if name.is_empty() {
            return false;
        }
    }
    true
}

/// Adds the lines of a header section that stay, the first cookie with the values of all.
fn add_own(fields: &Fields, hops: &Hops, drop_host: bool, cleaned: &mut Fields)
    requires named { All IsNamed fields.now.lines }
    requires room { IsAdding cleaned.old cleaned.old
        (own_lines (dropped_names hops.now.names drop_host) (crumbs (values_of cookie_name fields.now.lines)) false fields.now.lines)
        (own_lines (dropped_names hops.now.names drop_host) (crumbs (values_of cookie_name fields.now.lines)) false fields.now.lines) }
    ensures { IsAdding cleaned.old cleaned.new []
        (own_lines (dropped_names hops.now.names drop_host) (crumbs (values_of cookie_name fields.now.lines)) false fields.now.lines) }
{
    let mut joined = false;
    for i in 0..fields.len() {
        let (name, value) = fields.line(i);
        if is_dropped(name, hops, drop_host, joined) {
            continue;
        }
        push_own(fields, name, value, cleaned);
        joined |= is_cookie(name);
    }
}

/// Adds the lines of a trailer section that stay.
fn add_trailers(fields: &Fields, hops: &Hops, cleaned: &mut Fields)
    requires named { All IsNamed fields.now.lines }
    requires room { IsAdding cleaned.old cleaned.old (without (dropped_trailers hops.now.names) fields.now.lines)
        (without (dropped_trailers hops.now.names) fields.now.lines) }
    ensures { IsAdding cleaned.old cleaned.new [] (without (dropped_trailers hops.now.names) fields.now.lines) }
{
    for i in 0..fields.len() {
        let (name, value) = fields.line(i);
        if is_dropped_trailer(name, hops) {
            continue;
        }
        push(name, value, cleaned);
    }
}

/// Adds a line of the fields as it stays: a cookie with the values of all. There is room for it.
fn push_own(fields: &Fields, name: &[u8], value: &[u8], to: &mut Fields)
    requires idle { to.old.making ≡ None }
    requires named { 0 < length name.now }
    requires lower_case { lower name.now ≡ name.now }
    requires spare { length name.now
        + length (cond (is_cookie_name name.now) (crumbs (values_of cookie_name fields.now.lines)) value.now) + 2 ≤ to.old.spare }
    requires free { 1 ≤ to.old.free }
    ensures lines { to.new.lines ≡ to.old.lines
        ++ record {
          name = name.now;
          value = cond (is_cookie_name name.now) (crumbs (values_of cookie_name fields.now.lines)) value.now;
        } ∷ [] }
    ensures making { to.new.making ≡ None }
    ensures spare { to.new.spare
        + (length name.now + length (cond (is_cookie_name name.now) (crumbs (values_of cookie_name fields.now.lines)) value.now) + 2)
        ≡ to.old.spare }
    ensures free { to.new.free + 1 ≡ to.old.free }
{
    if is_cookie(name) {
        push_cookies(fields, to);
    } else {
        push(name, value, to);
    }
}

/// Adds a line. There is room for it.
fn push(name: &[u8], value: &[u8], to: &mut Fields)
    requires idle { to.old.making ≡ None }
    requires named { 0 < length name.now }
    requires lower_case { lower name.now ≡ name.now }
    requires spare { length name.now + length value.now + 2 ≤ to.old.spare }
    requires free { 1 ≤ to.old.free }
    ensures lines { to.new.lines ≡ to.old.lines ++ record { name = name.now; value = value.now } ∷ [] }
    ensures making { to.new.making ≡ None }
    ensures spare { to.new.spare + (length name.now + length value.now + 2) ≡ to.old.spare }
    ensures free { to.new.free + 1 ≡ to.old.free }
{
    to.push_line(name, value);
}

/// Adds a cookie line with the values of all that aren't empty, joined with `; `. There is room for it.
fn push_cookies(fields: &Fields, to: &mut Fields)
    requires idle { to.old.making ≡ None }
    requires spare { length cookie_name + length (crumbs (values_of cookie_name fields.now.lines)) + 2 ≤ to.old.spare }
    requires free { 1 ≤ to.old.free }
    ensures lines { to.new.lines ≡ to.old.lines
        ++ record { name = cookie_name; value = crumbs (values_of cookie_name fields.now.lines) } ∷ [] }
    ensures making { to.new.making ≡ None }
    ensures spare { to.new.spare + (length cookie_name + length (crumbs (values_of cookie_name fields.now.lines)) + 2) ≡ to.old.spare }
    ensures free { to.new.free + 1 ≡ to.old.free }
{
    to.start_line();
    to.put_names(b"cookie");
    put_crumbs(fields, to);
    to.end_line();
}

/// Puts the values of all cookie lines that aren't empty, joined with `; `, into the line that was begun.
fn put_crumbs(fields: &Fields, to: &mut Fields)
    requires making { to.old.making ≡ Some (record { name = cookie_name; value = [] }) }
    requires spare { length (crumbs (values_of cookie_name fields.now.lines)) ≤ to.old.spare }
    ensures lines { to.new.lines ≡ to.old.lines }
    ensures making { to.new.making ≡ Some (record { name = cookie_name; value = crumbs (values_of cookie_name fields.now.lines) }) }
    ensures spare { to.new.spare + length (crumbs (values_of cookie_name fields.now.lines)) ≡ to.old.spare }
    ensures free { to.new.free ≡ to.old.free }
{
    let mut some = false;
    let mut from = 0;
    while let Some((value, next)) = value_from(fields, b"cookie", from) {
        put_crumb(value, some, to);
        some |= !value.is_empty();
        from = next;
    }
}

/// Puts a value, if it isn't empty; where others stand before it, behind `; `.
fn put_crumb(value: &[u8], behind: bool, to: &mut Fields)
    requires making { IsSomeAnd to.old.making (λ line. 0 < length line.name) }
    requires spare { length (crumb_bytes behind value.now) ≤ to.old.spare }
    ensures lines { to.new.lines ≡ to.old.lines }
    ensures making { to.new.making ≡ option_map (value_grown_by (crumb_bytes behind value.now)) to.old.making }
    ensures spare { to.new.spare + length (crumb_bytes behind value.now) ≡ to.old.spare }
    ensures free { to.new.free ≡ to.old.free }
{
    if value.is_empty() {
        return;
    }
    to.put_values(separator(behind));
    to.put_values(value);
}

/// What stands before a value.
fn separator(behind: bool) -> &'static [u8]
    ensures { result.now ≡ cond behind (codes "; ") [] }
{
    if behind { b"; " } else { b"" }
}

/// Whether a header section drops lines of the name; `joined`: behind a cookie.
fn is_dropped(name: &[u8], hops: &Hops, drop_host: bool, joined: bool) -> bool
    ensures { result ≡ is_dropped_of (dropped_names hops.now.names drop_host) joined name.now }
{
    is_connection(name)
        || hops.names(name)
        || (drop_host && name == b"host".as_slice())
        || (joined && is_cookie(name))
}

/// Whether a trailer section drops lines of the name.
fn is_dropped_trailer(name: &[u8], hops: &Hops) -> bool
    ensures { result ≡ is_among (dropped_trailers hops.now.names) name.now }
{
    is_connection(name) || hops.names(name) || is_kept(name)
}

/// Whether lines of the name are always a connection's.
fn is_connection(name: &[u8]) -> bool
    ensures { result ≡ is_among connection_names name.now }
{
    name == b"connection".as_slice()
        || name == b"proxy-connection".as_slice()
        || name == b"keep-alive".as_slice()
        || name == b"te".as_slice()
        || name == b"transfer-encoding".as_slice()
        || name == b"upgrade".as_slice()
}

/// `host` and `content-length`.
fn is_kept(name: &[u8]) -> bool
    ensures { result ≡ is_among kept_names name.now }
{
    name == b"host".as_slice() || name == b"content-length".as_slice()
}

fn is_cookie(name: &[u8]) -> bool
    ensures { result ≡ is_cookie_name name.now }
{
    name == b"cookie".as_slice()
}
