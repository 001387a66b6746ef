//! The binary format in definitions, and its laws.
//!
//! The definitions stand in `specs/`: `Integers`, `Bounds`, `Bytes`, `Messages`, `Texts`, `Sections`, `Tails`, `Spelling`,
//! `Viable`, `Answers`, `Canonical`, `Listing`, `Reports` and `Parts`, which docs/FORMAT.md says in words; `Printed` has the words
//! of kinds, omissions, parts and causes; `Alive` says which bytes may come next, `Intervals` which numbers begin with some bytes,
//! `Pieces` and `Readings` what a reader of bytes in pieces answers, `Residuals`, `Yields`, `Items`, `Readers` and `Runs` what may
//! still follow bytes that were read; `Laws` has the laws, and `Cases` the worked cases. The types here are those that the
//! definitions speak of. Each function but theirs (`bytes`, `number` and `text`) is empty: its contract is a law about the
//! definitions, or a worked case.
#![tactic(auto)]

ghost use Rattle.std.specs.Prelude.{◌≡◌, ◌≤◌, length};
ghost use Rattle.bh_spec.specs.Integers.{byte_count};
ghost use Rattle.bh_spec.specs.Parts.{number_of};
ghost use Rattle.bh_spec.specs.Printed.{why_number, form_number, kind_text, omitted_text, part_text, why_text, form_text};
ghost use Rattle.bh_spec.specs.Laws.{OneReading, OneNext, SomeNext, CanonIsSpelled, KnownIsSpelled, FitsWhereSpelled, WithoutLimits, CanonOnce, OneListing};
ghost use Rattle.bh_spec.specs.Alive.{AliveByInterval, FramingAlive, LineStep};
ghost use Rattle.bh_spec.specs.Cases.{TailLeftOut, PaddingCounted, UpperCaseName, FramingInFourBytes, TrailersLeftOut, InterimResponse, PseudoField, InputTooLong, FramingTooGreat, HeaderSectionMissing, RequestListed, ResponseListed, IntegerVectors, IntegerBoundaries};

/// The width of an integer: 1, 2, 4 or 8 bytes (RFC 9000, section 16).
#[derive(Clone, Copy, Debug, PartialEq, Eq)]
pub enum Width {
    One,
    Two,
    Four,
    Eight,
}

impl Width {
    /// How many bytes an integer of this width has.
    pub fn bytes(self) -> usize
        ensures { result ≡ byte_count self }
    {
        match self {
            Width::One => 1,
            Width::Two => 2,
            Width::Four => 4,
            Width::Eight => 8,
        }
    }
}

/// The part of a message that a byte belongs to. `SectionLength` serves interim, header and trailer sections; the number
/// that ends a section is a `NameLength`, and the one that ends chunks a `ChunkLength`.
#[derive(Clone, Copy, Debug, PartialEq, Eq)]
pub enum Part {
    Framing = 1,
    MethodLength,
    Method,
    SchemeLength,
    Scheme,
    AuthorityLength,
    Authority,
    PathLength,
    Path,
    Status,
    SectionLength,
    NameLength,
    Name,
    ValueLength,
    Value,
    ContentLength,
    ChunkLength,
    Content,
    Padding,
}

impl Part {
    /// The number of the part, from 1 for `Framing` to 19 for `Padding`.
    pub fn number(&self) -> u8
        ensures { result ≡ number_of self.now }
    {
        *self as u8
    }

    /// The word of the part, as `method-length`.
    pub fn text(&self) -> &'static str
        ensures text { result.now ≡ part_text self.now }
        ensures few { length result.now ≤ 16 }
    {
        match self {
            Part::Framing => "framing",
            Part::MethodLength => "method-length",
            Part::Method => "method",
            Part::SchemeLength => "scheme-length",
            Part::Scheme => "scheme",
            Part::AuthorityLength => "authority-length",
            Part::Authority => "authority",
            Part::PathLength => "path-length",
            Part::Path => "path",
            Part::Status => "status",
            Part::SectionLength => "section-length",
            Part::NameLength => "name-length",
            Part::Name => "name",
            Part::ValueLength => "value-length",
            Part::Value => "value",
            Part::ContentLength => "content-length",
            Part::ChunkLength => "chunk-length",
            Part::Content => "content",
            Part::Padding => "padding",
        }
    }
}

/// The numbers x where `low <= x <= high`. With `low > high` it holds none.
#[derive(Clone, Copy, Debug, PartialEq, Eq)]
pub struct Span {
    pub low: u64,
    pub high: u64,
}

/// What a number may leave of a room of so many bytes, in which it stands with the bytes that it counts: nothing where
/// `zero` is set, or a number in the span.
#[derive(Clone, Copy, Debug, PartialEq, Eq)]
pub struct Remainder {
    pub room: u64,
    pub zero: bool,
    pub span: Span,
}

/// The numbers that may stand at a place: 0 where `zero` is set, and those in the span that leave what `rest` says.
#[derive(Clone, Copy, Debug, PartialEq, Eq)]
pub struct Allowed {
    pub zero: bool,
    pub span: Span,
    pub rest: Option<Remainder>,
}

/// Whether a message is a request or a response.
#[derive(Clone, Copy, Debug, PartialEq, Eq)]
pub enum Kind {
    Request,
    Response,
}

impl Kind {
    /// The word of the kind: `request` or `response`.
    pub fn text(&self) -> &'static str
        ensures text { result.now ≡ kind_text self.now }
        ensures few { length result.now ≤ 16 }
    {
        match self {
            Kind::Request => "request",
            Kind::Response => "response",
        }
    }
}

/// Whether sections and content say their length first (RFC 9292, section 3).
#[derive(Clone, Copy, Debug, PartialEq, Eq)]
pub enum Form {
    Known,
    Indeterminate,
}

/// What an input leaves out at its end (RFC 9292, section 3.8): nothing, the trailer section, or the content too.
#[derive(Clone, Copy, Debug, PartialEq, Eq)]
pub enum Omitted {
    Nothing,
    Trailers,
    Both,
}

impl Omitted {
    /// The word of what is left out: `none`, `trailers` or `both`.
    pub fn text(&self) -> &'static str
        ensures text { result.now ≡ omitted_text self.now }
        ensures few { length result.now ≤ 16 }
    {
        match self {
            Omitted::Nothing => "none",
            Omitted::Trailers => "trailers",
            Omitted::Both => "both",
        }
    }
}

/// Why an input is refused, and where: `at` bytes stand before the refused byte, and `part` is the part of that byte in
/// every message that continues them.
#[derive(Clone, Copy, Debug, PartialEq, Eq)]
pub enum Refusal {
    /// No message continues the bytes up to and with this one, not even without limits.
    Dead { at: u64, part: Part },
    /// Only the limits forbid every message that continues them.
    Limit { at: u64, part: Part },
    /// The input ends before its message does.
    Ended { at: u64, part: Part },
    /// The input has more than `at` bytes, the limit of the input.
    TooLong { at: u64 },
}

/// Why an HTTP/1.1 message is refused.
#[derive(Clone, Copy, Debug, PartialEq, Eq)]
pub enum H1Why {
    /// A head isn't of its form, or a later head of a response isn't a response's.
    HeadForm = 1,
    /// A head, its control data or its lines are longer than the limits allow.
    HeadLimit,
    /// The target has none of the three forms.
    Target,
    /// There isn't exactly one Host line; or the target isn't in absolute form, and the value has a byte that no authority
    /// has.
    Host,
    /// The method is CONNECT.
    Connect,
    /// The status is 101.
    Switching,
    /// The transfer coding isn't `chunked` alone, or stands beside a length.
    Coding,
    /// The length is no number, or stands there more than once.
    Length,
    /// A chunk line isn't of its form.
    ChunkLine,
    /// A chunk line is too long.
    ChunkLineLimit,
    /// No line end follows a chunk.
    ChunkEnd,
    /// The trailer section isn't of its form.
    TrailerForm,
    /// The trailer section or its lines are longer than the limits allow.
    TrailerLimit,
    /// The input ends before the message does.
    Ended,
    /// A byte follows the message.
    Extra,
    /// The input is longer than its limit.
    TooLong,
    /// There are more interim responses than the limits allow.
    Interims,
}

impl H1Why {
    /// The number of the cause, from 1 for `HeadForm` to 17 for `Interims`.
    pub fn number(&self) -> u8
        ensures { result ≡ why_number self.now }
    {
        *self as u8
    }

    /// The word of the cause, as `head-form`.
    pub fn text(&self) -> &'static str
        ensures text { result.now ≡ why_text self.now }
        ensures few { length result.now ≤ 16 }
    {
        match self {
            H1Why::HeadForm => "head-form",
            H1Why::HeadLimit => "head-limit",
            H1Why::Target => "target",
            H1Why::Host => "host",
            H1Why::Connect => "connect",
            H1Why::Switching => "switching",
            H1Why::Coding => "coding",
            H1Why::Length => "length",
            H1Why::ChunkLine => "chunk-line",
            H1Why::ChunkLineLimit => "chunk-line-limit",
            H1Why::ChunkEnd => "chunk-end",
            H1Why::TrailerForm => "trailer-form",
            H1Why::TrailerLimit => "trailer-limit",
            H1Why::Ended => "ended",
            H1Why::Extra => "extra",
            H1Why::TooLong => "too-long",
            H1Why::Interims => "interims",
        }
    }
}

/// Why a message has no HTTP/1.1 form.
#[derive(Clone, Copy, Debug, PartialEq, Eq)]
pub enum NoForm {
    /// A field's name has a colon: it is a pseudo-field (RFC 9292, section 3.6).
    Pseudo,
    /// A value that the text would have has a byte that no value of HTTP/1.1 has.
    ValueByte,
    /// The `host` lines don't say what the authority says; or there is no authority, and not one line that is one.
    Host,
    /// The method is CONNECT.
    Connect,
    /// The scheme is neither `http` nor `https`.
    Scheme,
    /// An interim response has the status 101.
    Switching,
    /// A response without a body has content, or a trailer line that the text would have.
    Bodyless,
    /// A content length is no number of 1 to 18 digits, or stands there more than once.
    LengthField,
    /// The content has another length than its field says. `content` is its length where that is smaller than `field`,
    /// and `field + 1` where it is greater.
    LengthDiffers { field: u64, content: u64 },
    /// A body of counted length has a trailer line that the text would have.
    TrailersCounted,
}

impl NoForm {
    /// The number of the cause, from 1 for `Pseudo` to 10 for `TrailersCounted`.
    pub fn number(&self) -> u8
        ensures { result ≡ form_number self.now }
    {
        match self {
            NoForm::Pseudo => 1,
            NoForm::ValueByte => 2,
            NoForm::Host => 3,
            NoForm::Connect => 4,
            NoForm::Scheme => 5,
            NoForm::Switching => 6,
            NoForm::Bodyless => 7,
            NoForm::LengthField => 8,
            NoForm::LengthDiffers { .. } => 9,
            NoForm::TrailersCounted => 10,
        }
    }

    /// The word of the cause, as `value-byte`.
    pub fn text(&self) -> &'static str
        ensures text { result.now ≡ form_text self.now }
        ensures few { length result.now ≤ 16 }
    {
        match self {
            NoForm::Pseudo => "pseudo",
            NoForm::ValueByte => "value-byte",
            NoForm::Host => "host",
            NoForm::Connect => "connect",
            NoForm::Scheme => "scheme",
            NoForm::Switching => "switching",
            NoForm::Bodyless => "bodyless",
            NoForm::LengthField => "length-field",
            NoForm::LengthDiffers { .. } => "length-differs",
            NoForm::TrailersCounted => "trailers-counted",
        }
    }
}

/// What a reader makes of a piece of bytes.
#[derive(Clone, Copy, Debug, PartialEq, Eq)]
pub enum PieceStep {
    /// The whole piece was taken, and what is read goes on.
    Need,
    /// With so many bytes of the piece it is whole.
    Whole { taken: usize },
    /// Nothing goes on with the byte at this place of the piece, counted from 0, not even without limits. The byte's part is that of
    /// the next byte in all that continues the bytes before it.
    Dead { offset: usize, part: Part },
    /// Only the limits forbid all that goes on with the byte.
    Limit { offset: usize, part: Part },
}

/// What a byte makes of what is read.
#[derive(Clone, Copy, Debug, PartialEq, Eq)]
pub enum Judged {
    /// It goes on.
    More,
    /// It is whole.
    Whole,
    /// Only the limits forbid all that begins so.
    Limit,
    /// Nothing begins so.
    Dead,
}

/// What was read: the bytes of the input, the field lines with those of interim responses and of the trailer section,
/// the bytes of content, and the zeros of padding.
#[derive(Clone, Copy, Debug, PartialEq, Eq)]
pub struct Summary {
    pub kind: Kind,
    pub bytes: u64,
    pub lines: u64,
    pub content: u64,
    pub padding: u64,
    pub omitted: Omitted,
}

/// Bytes have one reading, whatever the limits: one message, one omission, one number of zeros of padding.
pub fn one_reading()
    ensures { OneReading }
{}

/// Whatever begins with some bytes and goes on, the next byte belongs to one part, with limits and without.
pub fn one_next_part()
    ensures { OneNext }
{}

/// Every viable prefix has a next part.
pub fn some_next_part()
    ensures { SomeNext }
{}

/// What fits the limits has its canonical text within them, where the message is valid and integers can hold the lengths of its
/// strings. Its content may be of any length.
pub fn canon_is_spelled()
    ensures { CanonIsSpelled }
{}

/// What fits the limits has its known-length text within them, where the message is valid and integers can hold each of its
/// lengths, that of the content too.
pub fn known_is_spelled()
    ensures { KnownIsSpelled }
{}

/// What has some text within the limits fits them.
pub fn fits_where_spelled()
    ensures { FitsWhereSpelled }
{}

/// What is spelled within limits is spelled without.
pub fn without_limits()
    ensures { WithoutLimits }
{}

/// Different messages have different canonical texts.
pub fn canon_once()
    ensures { CanonOnce }
{}

/// Different messages have different listings.
pub fn one_listing()
    ensures { OneListing }
{}

/// Some allowed number begins with some bytes exactly where one of the interval that they leave is allowed.
pub fn alive_by_interval()
    ensures { AliveByInterval }
{}

/// Where the limit of a part is 5 or more, bytes that lie within a message's first number are viable exactly where they
/// begin a framing number.
pub fn framing_alive()
    ensures { FramingAlive }
{}

/// In a known-length section a line takes its bytes and adds its field.
pub fn line_step()
    ensures { LineStep }
{}

/// Worked case: content and trailer section are left out.
pub fn the_tail_may_be_left_out()
    ensures { TailLeftOut }
{}

/// Worked case: three zeros of padding.
pub fn padding_is_counted()
    ensures { PaddingCounted }
{}

/// Worked case: a name in upper case, and both texts that are written.
pub fn an_upper_case_name_is_read_in_lower_case()
    ensures { UpperCaseName }
{}

/// Worked case: a response whose framing number stands in four bytes.
pub fn a_framing_number_may_have_four_bytes()
    ensures { FramingInFourBytes }
{}

/// Worked case: chunked content, and no trailer section.
pub fn the_trailer_section_may_be_left_out()
    ensures { TrailersLeftOut }
{}

/// Worked case: a response behind an interim response.
pub fn an_interim_response_is_read()
    ensures { InterimResponse }
{}

/// Worked case: a pseudo-field in a header section.
pub fn a_pseudo_field_may_stand_in_a_header_section()
    ensures { PseudoField }
{}

/// Worked case: a message, and one byte more than the limit of the input.
pub fn an_input_beyond_its_limit_is_too_long()
    ensures { InputTooLong }
{}

/// Worked case: the first byte shows that the framing number is too great.
pub fn a_framing_number_over_255_is_dead()
    ensures { FramingTooGreat }
{}

/// Worked case: the input ends before the header section.
pub fn a_header_section_may_not_be_left_out()
    ensures { HeaderSectionMissing }
{}

/// Worked case: the listing of a request.
pub fn a_request_is_listed()
    ensures { RequestListed }
{}

/// Worked case: the listing of a response.
pub fn a_response_is_listed()
    ensures { ResponseListed }
{}

/// The vectors of RFC 9000, appendix A.1.
pub fn integer_vectors()
    ensures { IntegerVectors }
{}

/// The greatest number of each width, and the least of the next.
pub fn integer_boundaries()
    ensures { IntegerBoundaries }
{}
