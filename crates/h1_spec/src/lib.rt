//! HTTP/1.1 in definitions, its translation to Binary HTTP and back, and the laws that join the two.
//!
//! The definitions stand in `specs/`, and docs/HTTP1.md says them in words: `Grammar`, `Heads`, `Targets`, `Framing` and `Bodies`
//! what an HTTP/1.1 text is made of, `Cleaning` what of a message is its own, `Http1` the message that a text is, `Http1Text` and
//! `Written` the text of a message, `Marks` which bytes of a text are content, `Causes` and `BodyCauses` why bytes are no message,
//! `Moments` and `Judging` when a message that has no text is judged, `Residuals` what is left of a kind of bytes behind some of
//! them, `Translation` the answers of the two translators, `ChunkStates`, `BodyStates` and `BodyCalls` where a reader stands in a
//! body, `Laws` the laws, and `Cases` worked cases. Each function here is empty: its contract is a law, or a worked case.
#![tactic(auto)]

ghost use Rattle.h1_spec.specs.Laws.{OneMessage, WithoutLimits, ReadIsValid, OneTarget, OneBody, OneHead, HeadEnds, CleanTwice};
ghost use Rattle.h1_spec.specs.Laws.{CleanTrailersTwice, CleanMessageTwice, There, ThereWithin, ThereRead, AndBack, ReadAgain};
ghost use Rattle.h1_spec.specs.Laws.{IntoThenFrom, IntoThenRead, FromThenInto, FromIntoFrom, OneFrom, SomeFrom, StaysBroken};
ghost use Rattle.h1_spec.specs.Laws.{OneInto, SomeInto, NoLaterByte, OneMoment, JudgedIsViable, AgreesWithForms, FormedWhereFree};
ghost use Rattle.h1_spec.specs.Laws.{FreeWhereFormed, FormlessIsTheForm, MarksTheContent, OneMarking, MarksTheText, ThereMarked};
ghost use Rattle.h1_spec.specs.ChunkStates.{LineBegins, LineEnds, AnyLineBegins};
ghost use Rattle.h1_spec.specs.Cases.{HopsNamed, CookiesJoined, TrailersCleaned, StarWritten, FormsMissing, SectionsMissing};
ghost use Rattle.h1_spec.specs.Cases.{WholeTarget, StarRefused, HeadAnswered, HelloTranslated, ChunksTranslated, OptionsRead};
ghost use Rattle.h1_spec.specs.Cases.{FieldsRead, RequestsRefused, ChunkUnended, InterimsTranslated, NotModified};

mod body_laws;

pub use body_laws::{
    exact_for_every_cut, none_behind_body, none_where_whole, one_cause, one_in_front,
    starts_with_a_body, written_is_body,
};

/// How the end of a body is found (RFC 9112, section 6.3).
#[derive(Clone, Copy, Debug, PartialEq, Eq)]
pub enum Framing1 {
    /// There is no body.
    Empty,
    /// It has so many bytes.
    Counted(u64),
    /// It stands in chunks.
    Chunked,
    /// It lasts to the end of the input.
    ToEnd,
}

/// The scheme of a request whose target names none.
#[derive(Clone, Copy, Debug, PartialEq, Eq)]
pub enum Scheme1 {
    Http,
    Https,
}

// ---- What an HTTP/1.1 text says, and that it says one thing

/// Bytes are one HTTP/1.1 message at most, whatever the limits.
pub fn one_message()
    ensures { OneMessage }
{}

/// What is a message within limits is one without.
pub fn without_limits()
    ensures { WithoutLimits }
{}

/// A message that is read is valid.
pub fn read_is_valid()
    ensures { ReadIsValid }
{}

/// A target says one thing.
pub fn one_target()
    ensures { OneTarget }
{}

/// A body has one content and one trailer section.
pub fn one_body()
    ensures { OneBody }
{}

/// Bytes begin with one head at most.
pub fn one_head()
    ensures { OneHead }
{}

/// A head ends at the first empty line.
pub fn head_ends()
    ensures { HeadEnds }
{}

// ---- Cleaning

/// A clean header section stays as it is.
pub fn clean_twice()
    ensures { CleanTwice }
{}

/// A clean trailer section stays as it is.
pub fn clean_trailers_twice()
    ensures { CleanTrailersTwice }
{}

/// A clean message stays as it is.
pub fn clean_message_twice()
    ensures { CleanMessageTwice }
{}

// ---- There and back

/// The text of a message is the cleaned message.
pub fn there()
    ensures { There }
{}

/// It is so within the limits that the text keeps.
pub fn there_within()
    ensures { ThereWithin }
{}

/// What is read from a message's own text is the cleaned message, within any limits.
pub fn there_read()
    ensures { ThereRead }
{}

/// What is read is clean, and has a text.
pub fn and_back()
    ensures { AndBack }
{}

/// What is read is read again from its own text.
pub fn read_again()
    ensures { ReadAgain }
{}

/// What the translator to HTTP/1.1 writes, the other reads as the cleaned message.
pub fn into_then_from()
    ensures { IntoThenFrom }
{}

/// It reads that, where the text keeps its limits.
pub fn into_then_read()
    ensures { IntoThenRead }
{}

/// What the translator from HTTP/1.1 writes, the other has a text for.
pub fn from_then_into()
    ensures { FromThenInto }
{}

/// The third translation gives what the first gave, where the text keeps the limits.
pub fn from_into_from()
    ensures { FromIntoFrom }
{}

// ---- The answers of the translator from HTTP/1.1

/// It has one right answer.
pub fn one_from()
    ensures { OneFrom }
{}

/// No input is without one.
pub fn some_from()
    ensures { SomeFrom }
{}

/// What breaks an input breaks every longer one, but for its end.
pub fn stays_broken()
    ensures { StaysBroken }
{}

// ---- The answers of the translator to HTTP/1.1

/// It has one right answer.
pub fn one_into()
    ensures { OneInto }
{}

/// No input is without one.
pub fn some_into()
    ensures { SomeInto }
{}

/// What a byte decides depends on no byte behind it.
pub fn no_later_byte()
    ensures { NoLaterByte }
{}

/// At most one moment comes with a byte.
pub fn one_moment()
    ensures { OneMoment }
{}

/// What is judged is viable.
pub fn judged_is_viable()
    ensures { JudgedIsViable }
{}

/// The rules of all moments of a message, in their order, say what the rules of the whole message say.
pub fn agrees_with_forms()
    ensures { AgreesWithForms }
{}

/// A message that has a text is judged nowhere, in whatever way its bytes are spelled.
pub fn formed_where_free()
    ensures { FormedWhereFree }
{}

/// A message none of whose bytes is judged, nor its end, has a text.
pub fn free_where_formed()
    ensures { FreeWhereFormed }
{}

/// The form that is judged is the first that holds of the message.
pub fn formless_is_the_form()
    ensures { FormlessIsTheForm }
{}

// ---- Content

/// The marked bytes of a text are the content of its message.
pub fn marks_the_content()
    ensures { MarksTheContent }
{}

/// Bytes with which texts begin have the same marks in all of them.
pub fn one_marking()
    ensures { OneMarking }
{}

/// The text of a message with its marks is its text.
pub fn marks_the_text()
    ensures { MarksTheText }
{}

/// The marks of what is written for a message are those of an HTTP/1.1 text.
pub fn there_marked()
    ensures { ThereMarked }
{}

// ---- Chunk lines, byte by byte

/// A chunk line goes on behind some bytes exactly where a reader has a state there.
pub fn line_begins()
    ensures { LineBegins }
{}

/// Bytes are a chunk line exactly where that state is its end.
pub fn line_ends()
    ensures { LineEnds }
{}

/// The same for a size of any number of digits: what tells a digit too many from a byte that breaks the form.
pub fn any_line_begins()
    ensures { AnyLineBegins }
{}

// ---- Worked cases

/// Which names `connection` names.
pub fn hops_are_words()
    ensures { HopsNamed }
{}

/// One cookie line for several, and for empty ones.
pub fn cookies_are_joined()
    ensures { CookiesJoined }
{}

/// A trailer that the header section names, and `host`, are dropped.
pub fn trailers_are_cleaned()
    ensures { TrailersCleaned }
{}

/// OPTIONS for a whole server, with an authority and without.
pub fn the_star_is_left_out_behind_an_authority()
    ensures { StarWritten }
{}

/// Messages that have no text, and neighbours that have one.
pub fn some_messages_have_no_text()
    ensures { FormsMissing }
{}

/// Sections that have no text.
pub fn some_sections_have_no_text()
    ensures { SectionsMissing }
{}

/// Scheme, authority and query in a target.
pub fn a_target_may_name_its_host()
    ensures { WholeTarget }
{}

/// GET with a star.
pub fn the_star_is_for_options()
    ensures { StarRefused }
{}

/// A content length with and without content behind it.
pub fn the_answer_to_head_has_no_content()
    ensures { HeadAnswered }
{}

/// The request of RFC 9292, section 5.1, both ways.
pub fn the_first_example_is_translated()
    ensures { HelloTranslated }
{}

/// Chunks with an extension, cookies, a named hop and a trailer, both ways.
pub fn chunks_are_translated()
    ensures { ChunksTranslated }
{}

/// OPTIONS for a server that the target names, and for this one.
pub fn options_are_read()
    ensures { OptionsRead }
{}

/// `connection: host` names nothing, and empty cookies are one.
pub fn a_hop_named_host_is_kept()
    ensures { FieldsRead }
{}

/// Requests that are refused, each for another cause.
pub fn some_requests_are_refused()
    ensures { RequestsRefused }
{}

/// An input that ends behind CR.
pub fn a_line_end_behind_a_chunk_is_missing()
    ensures { ChunkUnended }
{}

/// An informational response, none allowed, and status 101.
pub fn an_early_response_is_translated()
    ensures { InterimsTranslated }
{}

/// A content length that says no body.
pub fn the_length_of_304_is_kept()
    ensures { NotModified }
{}
