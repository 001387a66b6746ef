//! Words read with clap.
ghost use Rattle.std.specs.Prelude.{◌≡◌, ◌++◌, IfOk, MatchOption, map, true, false, string_bytes};
ghost use Rattle.clap.specs.Words.{app_of, kind_of, rule_of};
ghost use Rattle.bh_words.specs.Arguments.{app, bare, adding, is_form, option_argument, switch_argument, own_argument};
ghost use Rattle.bh_words.specs.Forms.{form_of, texts};
ghost use Rattle.bh_words.specs.Reader.{SetsNothing, Sets};

use crate::forms::Form;
use crate::shapes::are_words;
use clap::error::ErrorKind;
use clap::{Arg, ArgAction, ArgMatches, Command, Error};
use std::alloc::{AllocError, Global};

/// The argument of an option.
fn option_of<'a>(alloc: Global, name: &'a str) -> Arg<'a>
    ensures rule { rule_of result ≡ option_argument name.entry.now }
    ensures local { result.global ≡ false }
{
    Arg::new(alloc, name).long(name).action(ArgAction::Set)
}

/// The argument of a switch.
fn switch_of<'a>(alloc: Global, name: &'a str) -> Arg<'a>
    ensures rule { rule_of result ≡ switch_argument name.entry.now }
    ensures local { result.global ≡ false }
{
    Arg::new(alloc, name).long(name).action(ArgAction::SetTrue)
}

/// The argument of a command's own word.
fn own_of<'a>(alloc: Global, name: &'a str) -> Arg<'a>
    ensures rule { rule_of result ≡ own_argument name.entry.now }
    ensures local { result.global ≡ false }
{
    Arg::new(alloc, name).required(true).action(ArgAction::Set)
}

/// The command with an option for each of the names.
fn with_options<'a>(
    alloc: Global,
    mut command: Command<'a>,
    names: &[&'static str],
) -> Result<Command<'a>, AllocError>
    ensures { IfOk result (λ c. app_of c ≡ adding (app_of command.entry) (map option_argument (texts names.now))) }
{
    for name in names {
        command = command.arg(option_of(alloc, *name))?;
    }
    Ok(command)
}

/// The command with a switch for each of the names.
fn with_switches<'a>(
    alloc: Global,
    mut command: Command<'a>,
    names: &[&'static str],
) -> Result<Command<'a>, AllocError>
    ensures { IfOk result (λ c. app_of c ≡ adding (app_of command.entry) (map switch_argument (texts names.now))) }
{
    for name in names {
        command = command.arg(switch_of(alloc, *name))?;
    }
    Ok(command)
}

/// The command with no argument yet, in which no option may stand twice.
fn empty<'a>(alloc: Global) -> Command<'a>
    ensures { app_of result ≡ bare }
{
    Command::new(alloc, "x")
        .no_binary_name(true)
        .disable_help_flag(true)
        .disable_version_flag(true)
        .args_override_self(false)
}

/// The command of a form.
fn command_of<'a>(alloc: Global, form: Form) -> Result<Command<'a>, AllocError>
    ensures { IfOk result (λ c. app_of c ≡ app (form_of form)) }
{
    let with_names = with_options(alloc, empty(alloc), form.options)?;
    let with_all = with_switches(alloc, with_names, form.switches)?;
    match form.own {
        Some(name) => with_all.arg(own_of(alloc, name)),
        None => Ok(with_all),
    }
}

/// Whether memory ran out.
fn is_out_of_memory(error: &Error) -> bool
    ensures { kind_of error.now ≡ ErrorKind.OutOfMemory → result ≡ true }
{
    match error.kind() {
        ErrorKind::OutOfMemory => true,
        _ => false,
    }
}

/// What the words behind a command's name set, or none where a command of the form has no such words.
pub(crate) fn read<'a>(
    alloc: Global,
    words: &'a [String],
    form: Form,
) -> Result<Option<ArgMatches<'a>>, AllocError>
    requires { is_form (form_of form) ≡ true }
    ensures { IfOk result (λ found. MatchOption found
        (SetsNothing (form_of form) (map string_bytes words.entry.now))
        (Sets (form_of form) (map string_bytes words.entry.now))) }
{
    if !are_words(words, form) {
        return Ok(None);
    }
    let command = command_of(alloc, form)?;
    match command.try_get_matches_from(words) {
        Ok(matches) => Ok(Some(matches)),
        Err(error) => {
            if is_out_of_memory(&error) {
                return Err(AllocError);
            }
            Ok(None)
        }
    }
}
