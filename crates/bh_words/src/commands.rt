//! The command that the words mean.
ghost use Rattle.std.specs.Prelude.{◌≡◌, ◌∷◌, ℕ, IfOk, MatchOption, map, string_bytes, codes};
ghost use Rattle.clap.specs.Words.{first_value, found_of};
ghost use Rattle.bh_spec.specs.Bounds.{Bounds};
ghost use Rattle.bh_words.specs.Settings.{Finds};
ghost use Rattle.bh_words.specs.Words.{IsCommand, AreGiven, IsTrial, MeanLimits, MeanFrom, MeanInto, MeanTrial};

use crate::forms::{FROM, INTO, LIMITED, TRIAL};
use crate::numbers::{given, number};
use crate::reader::read;
use crate::schemes::given_scheme;
use bh_base::NoMemory;
use bh_model::Limits;
use clap::ArgMatches;
use h1_spec::Scheme1;
use std::alloc::{AllocError, Global};

/// A command, with what its words say.
#[derive(Clone, Copy, Debug, PartialEq, Eq)]
pub enum Command {
    /// Make a message canonical.
    Canon(Limits),
    /// Check a message.
    Check(Limits),
    /// List a message.
    Show(Limits),
    /// Translate a message from HTTP/1.1; `scheme`: that of a request whose target names none; `to_head`: a response answers HEAD.
    FromHttp1 {
        limits: Limits,
        scheme: Scheme1,
        to_head: bool,
    },
    /// Translate a message to HTTP/1.1; `to_head`: a response answers HEAD.
    ToHttp1 {
        limits: Limits,
        to_head: bool,
    },
    /// Make a message with so many bytes of content, and make it canonical.
    Trial(u64),
}

/// The most bytes of content that `trial` makes.
const MOST_CONTENT: u64 = 67_108_864;

/// The limits that are given.
fn limits_of(matches: &ArgMatches<'_>) -> Option<Limits>
    ensures { Finds (AreGiven (first_value (found_of matches.now))) result }
{
    let default = Limits::default();
    let part = given(matches.get_str("part"), default.part())?;
    let section = given(matches.get_str("section"), default.section())?;
    let interims = given(matches.get_str("interims"), default.interims())?;
    let input = given(matches.get_str("input"), default.input())?;
    Limits::new(part, section, interims, input)
}

/// The number of `trial`.
fn trial_of(matches: &ArgMatches<'_>) -> Option<u64>
    ensures { Finds (IsTrial (first_value (found_of matches.now))) result }
{
    match number(matches.get_str("N")?) {
        Some(n) => if n <= MOST_CONTENT { Some(n) } else { None },
        None => None,
    }
}

/// The limits that the words behind a command's name mean.
fn limited(alloc: Global, words: &[String]) -> Result<Option<Limits>, NoMemory>
    ensures { IfOk result (Finds (MeanLimits (map string_bytes words.now))) }
{
    match read(alloc, words, LIMITED)? {
        Some(matches) => Ok(limits_of(&matches)),
        None => Ok(None),
    }
}

/// The limits, the scheme, and whether a response answers HEAD, that the words behind `from-http1` mean.
fn from(alloc: Global, words: &[String]) -> Result<Option<(Limits, Scheme1, bool)>, NoMemory>
    ensures { IfOk result (Finds (λ all. MeanFrom (map string_bytes words.now) all.0 all.1 all.2)) }
{
    match read(alloc, words, FROM)? {
        Some(matches) => match limits_of(&matches) {
            Some(limits) => match given_scheme(matches.get_str("scheme")) {
                Some(scheme) => Ok(Some((limits, scheme, matches.get_flag("to-head")))),
                None => Ok(None),
            },
            None => Ok(None),
        },
        None => Ok(None),
    }
}

/// The limits, and whether a response answers HEAD, that the words behind `to-http1` mean.
fn into(alloc: Global, words: &[String]) -> Result<Option<(Limits, bool)>, NoMemory>
    ensures { IfOk result (Finds (λ both. MeanInto (map string_bytes words.now) both.0 both.1)) }
{
    match read(alloc, words, INTO)? {
        Some(matches) => match limits_of(&matches) {
            Some(limits) => Ok(Some((limits, matches.get_flag("to-head")))),
            None => Ok(None),
        },
        None => Ok(None),
    }
}

/// The number that the words behind `trial` mean.
fn trial(alloc: Global, words: &[String]) -> Result<Option<u64>, NoMemory>
    ensures { IfOk result (Finds (MeanTrial (map string_bytes words.now))) }
{
    match read(alloc, words, TRIAL)? {
        Some(matches) => Ok(trial_of(&matches)),
        None => Ok(None),
    }
}

/// `canon`, where the words behind its name mean it.
fn canon(alloc: Global, words: &[String]) -> Result<Option<Command>, NoMemory>
    ensures { IfOk result (Finds (IsCommand (codes "canon" ∷ map string_bytes words.now))) }
{
    match limited(alloc, words)? {
        Some(limits) => Ok(Some(Command::Canon(limits))),
        None => Ok(None),
    }
}

/// `check`, where the words behind its name mean it.
fn check(alloc: Global, words: &[String]) -> Result<Option<Command>, NoMemory>
    ensures { IfOk result (Finds (IsCommand (codes "check" ∷ map string_bytes words.now))) }
{
    match limited(alloc, words)? {
        Some(limits) => Ok(Some(Command::Check(limits))),
        None => Ok(None),
    }
}

/// `show`, where the words behind its name mean it.
fn show(alloc: Global, words: &[String]) -> Result<Option<Command>, NoMemory>
    ensures { IfOk result (Finds (IsCommand (codes "show" ∷ map string_bytes words.now))) }
{
    match limited(alloc, words)? {
        Some(limits) => Ok(Some(Command::Show(limits))),
        None => Ok(None),
    }
}

/// `from-http1`, where the words behind its name mean it.
fn from_http1(alloc: Global, words: &[String]) -> Result<Option<Command>, NoMemory>
    ensures { IfOk result (Finds (IsCommand (codes "from-http1" ∷ map string_bytes words.now))) }
{
    match from(alloc, words)? {
        Some((limits, scheme, to_head)) => Ok(Some(Command::FromHttp1 {
            limits,
            scheme,
            to_head,
        })),
        None => Ok(None),
    }
}

/// `to-http1`, where the words behind its name mean it.
fn to_http1(alloc: Global, words: &[String]) -> Result<Option<Command>, NoMemory>
    ensures { IfOk result (Finds (IsCommand (codes "to-http1" ∷ map string_bytes words.now))) }
{
    match into(alloc, words)? {
        Some((limits, to_head)) => Ok(Some(Command::ToHttp1 { limits, to_head })),
        None => Ok(None),
    }
}

/// `trial`, where the words behind its name mean it.
fn trial_command(alloc: Global, words: &[String]) -> Result<Option<Command>, NoMemory>
    ensures { IfOk result (Finds (IsCommand (codes "trial" ∷ map string_bytes words.now))) }
{
    match trial(alloc, words)? {
        Some(n) => Ok(Some(Command::Trial(n))),
        None => Ok(None),
    }
}

/// The command that the words behind a name mean, or none where they mean no command.
fn named(alloc: Global, name: &str, words: &[String]) -> Result<Option<Command>, NoMemory>
    ensures { IfOk result (Finds (IsCommand (name.now ∷ map string_bytes words.now))) }
{
    if name == "canon" {
        return canon(alloc, words);
    }
    if name == "check" {
        return check(alloc, words);
    }
    if name == "show" {
        return show(alloc, words);
    }
    if name == "from-http1" {
        return from_http1(alloc, words);
    }
    if name == "to-http1" {
        return to_http1(alloc, words);
    }
    if name == "trial" {
        return trial_command(alloc, words);
    }
    Ok(None)
}

/// The command that the words mean, which are the words behind the program's name, or none where they mean no command.
pub fn parse(alloc: Global, words: &[String]) -> Result<Option<Command>, NoMemory>
    ensures { IfOk result (Finds (IsCommand (map string_bytes words.now))) }
{
    match words.split_first() {
        Some((name, rest)) => named(alloc, name.as_str(), rest),
        None => Ok(None),
    }
}
