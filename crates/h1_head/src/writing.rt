//! Writes heads, each in as few writes as its bytes allow.
ghost use Rattle.std.specs.Prelude.{◌≡◌, ◌<◌, ◌++◌, option_map, is_err, false, codes};
ghost use Rattle.bh_base.specs.Batches.{Puts, Writes};
ghost use Rattle.bh_base.specs.Steps.{Counts};
ghost use Rattle.h1_spec.specs.Grammar.{crlf};
ghost use Rattle.h1_spec.specs.Heads.{request_line, status_line, three_digits};
ghost use Rattle.h1_spec.specs.Http1Text.{field_line, field_lines};
ghost use Rattle.h1_spec.specs.Written.{start_text, section_text, text_of_head, host_line, coding_line, request_written, response_written, IsWritable};
ghost use Rattle.h1_head.specs.Fronts.{request_front};

use bh_base::{Batch, Failed, Sink};
use bh_model::Fields;

/// Writes the head of a request: its line, a `host` line where one is given, the fields, and a line that says that chunks
/// follow where they do (RFC 9112, sections 3 to 6). At `Failed` a prefix of it went out.
pub fn write_request_head<S: Sink>(
    sink: &mut S,
    method: &[u8],
    target: &[u8],
    host: Option<&[u8]>,
    fields: &Fields,
    chunked: bool,
) -> Result<(), Failed>
    requires { IsWritable (request_written method.now target.now (option_map (λ host. host.now) host) fields.now.lines chunked) }
    ensures wrote { Writes S.write_step sink.old
        (text_of_head (request_written method.now target.now (option_map (λ host. host.now) host.entry) fields.now.lines chunked))
        result sink.new }
    ensures counts { Counts (is_err result) (S.write_faults sink.old) (S.write_faults sink.new) }
{
    let mut out = Batch::new();
    put_request_line(&mut out, sink, method, target);
    put_host(&mut out, sink, host);
    put_fields(&mut out, sink, fields);
    put_coding(&mut out, sink, chunked);
    out.put(sink, b"\r\n");
    out.flush(sink)
}

/// Writes the head of a request up to its end, where its body isn't known yet. At `Failed` a prefix of it went out.
pub fn write_request_front<S: Sink>(
    sink: &mut S,
    method: &[u8],
    target: &[u8],
    host: Option<&[u8]>,
    fields: &Fields,
) -> Result<(), Failed>
    requires { IsWritable (request_written method.now target.now (option_map (λ host. host.now) host) fields.now.lines false) }
    ensures wrote { Writes S.write_step sink.old
        (request_front method.now target.now (option_map (λ host. host.now) host.entry) fields.now.lines) result sink.new }
    ensures counts { Counts (is_err result) (S.write_faults sink.old) (S.write_faults sink.new) }
{
    let mut out = Batch::new();
    put_request_line(&mut out, sink, method, target);
    put_host(&mut out, sink, host);
    put_fields(&mut out, sink, fields);
    out.flush(sink)
}

/// Writes the end of such a head: a line that says that chunks follow, where they do, and the empty line.
pub fn write_head_end<S: Sink>(sink: &mut S, chunked: bool) -> Result<(), Failed>
    ensures wrote { Writes S.write_step sink.old (section_text (coding_line chunked)) result sink.new }
    ensures counts { Counts (is_err result) (S.write_faults sink.old) (S.write_faults sink.new) }
{
    let mut out = Batch::new();
    put_coding(&mut out, sink, chunked);
    out.put(sink, b"\r\n");
    out.flush(sink)
}

/// Writes the head of a response: its line without a reason, the fields, and a line that says that chunks follow where they
/// do (RFC 9112, sections 4 to 6). At `Failed` a prefix of it went out.
pub fn write_response_head<S: Sink>(
    sink: &mut S,
    status: u16,
    fields: &Fields,
    chunked: bool,
) -> Result<(), Failed>
    requires { IsWritable (response_written status fields.now.lines chunked) }
    ensures wrote { Writes S.write_step sink.old (text_of_head (response_written status fields.now.lines chunked)) result sink.new }
    ensures counts { Counts (is_err result) (S.write_faults sink.old) (S.write_faults sink.new) }
{
    let mut out = Batch::new();
    put_status_line(&mut out, sink, status);
    put_fields(&mut out, sink, fields);
    put_coding(&mut out, sink, chunked);
    out.put(sink, b"\r\n");
    out.flush(sink)
}

/// Puts field lines and the empty line: what ends a head, and a trailer section whole (RFC 9112, sections 5 and 7.1.2).
pub fn put_section<S: Sink>(out: &mut Batch, sink: &mut S, fields: &Fields)
    ensures { Puts S.write_step sink.old out.old (section_text fields.now.lines) sink.new out.new }
{
    put_fields(out, sink, fields);
    out.put(sink, b"\r\n");
}

/// Puts a request line.
fn put_request_line<S: Sink>(out: &mut Batch, sink: &mut S, method: &[u8], target: &[u8])
    ensures { Puts S.write_step sink.old out.old (start_text (request_line method.now target.now)) sink.new out.new }
{
    out.put(sink, method);
    out.put(sink, b" ");
    out.put(sink, target);
    out.put(sink, b" HTTP/1.1\r\n");
}

/// Puts a status line without a reason.
fn put_status_line<S: Sink>(out: &mut Batch, sink: &mut S, status: u16)
    requires { status < 1000 }
    ensures { Puts S.write_step sink.old out.old (start_text (status_line status)) sink.new out.new }
{
    out.put(sink, b"HTTP/1.1 ");
    out.put(sink, &digits_of(status));
    out.put(sink, b" \r\n");
}

/// The three decimal digits of a number below 1,000.
fn digits_of(n: u16) -> [u8; 3]
    requires { n < 1000 }
    ensures { result ≡ three_digits n }
{
    [
        b'0' + (n / 100) as u8,
        b'0' + (n / 10 % 10) as u8,
        b'0' + (n % 10) as u8,
    ]
}

/// Puts what a head says of the host, if anything.
fn put_host<S: Sink>(out: &mut Batch, sink: &mut S, host: Option<&[u8]>)
    ensures { Puts S.write_step sink.old out.old (field_lines (host_line (option_map (λ host. host.now) host.entry))) sink.new out.new }
{
    if let Some(host) = host {
        put_line(out, sink, b"host", host);
    }
}

/// Puts that chunks follow, if they do.
fn put_coding<S: Sink>(out: &mut Batch, sink: &mut S, chunked: bool)
    ensures { Puts S.write_step sink.old out.old (field_lines (coding_line chunked)) sink.new out.new }
{
    if chunked {
        put_line(out, sink, b"transfer-encoding", b"chunked");
    }
}

/// Puts field lines.
fn put_fields<S: Sink>(out: &mut Batch, sink: &mut S, fields: &Fields)
    ensures { Puts S.write_step sink.old out.old (field_lines fields.now.lines) sink.new out.new }
{
    for i in 0..fields.len() {
        let (name, value) = fields.line(i);
        put_line(out, sink, name, value);
    }
}

/// Puts a field line.
fn put_line<S: Sink>(out: &mut Batch, sink: &mut S, name: &[u8], value: &[u8])
    ensures { Puts S.write_step sink.old out.old (field_line (record { name = name.now; value = value.now })) sink.new out.new }
{
    out.put(sink, name);
    out.put(sink, b": ");
    out.put(sink, value);
    out.put(sink, b"\r\n");
}
