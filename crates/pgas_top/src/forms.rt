//! The words behind a command word, as `clap` reads them.
ghost use Rattle.std.specs.Prelude.{◌≡◌, [], IfOk, MatchOption, false, map, string_bytes, true};
ghost use Rattle.clap.specs.Words.{app_of, fault_of, found_of, is_simple_and_free, rule_of, takes};
ghost use Rattle.clap.specs.Simple.{matches_of};
ghost use Rattle.clap.specs.Walk.{rows_of};
ghost use Rattle.pgas_top.specs.Forms.{make_form_app, option_rule, plain_app, plain_form_app, word_rule};

use clap::error::ErrorKind;
use clap::{Arg, ArgAction, ArgMatches, Command};
use std::alloc::{AllocError, Global};

/// What clap finds in the words, or `None` where it refuses them.
pub fn find<'a>(
    form: Command<'a>,
    words: &'a [String],
) -> Result<Option<ArgMatches<'a>>, AllocError>
    requires { is_simple_and_free (app_of form) ≡ true }
    ensures { IfOk result (λ found. MatchOption found
        (takes (app_of form.entry) (map string_bytes words.entry.now) ≡ true → ⊥)
        (λ matches. (fault_of (app_of form.entry) (map string_bytes words.entry.now) ≡ [])
        × (rows_of (found_of matches) ≡ matches_of (app_of form.entry) (map string_bytes words.entry.now)))) }
{
    match form.try_get_matches_from(words) {
        Ok(matches) => Ok(Some(matches)),
        Err(error) => match error.kind() {
            ErrorKind::OutOfMemory => Err(AllocError),
            _ => Ok(None),
        },
    }
}

/// The words of `plain`: one.
pub fn plain_form<'a>(alloc: Global) -> Result<Command<'a>, AllocError>
    ensures { IfOk result (λ form. app_of form ≡ plain_form_app) }
{
    let plain = form(alloc, "plain").arg(word(alloc, "sources"))?;
    Ok(plain)
}

/// The words of `make`: three options.
pub fn make_form<'a>(alloc: Global) -> Result<Command<'a>, AllocError>
    ensures { IfOk result (λ form. app_of form ≡ make_form_app) }
{
    let make = form(alloc, "make")
        .arg(option(alloc, "seed"))?
        .arg(option(alloc, "vertices"))?
        .arg(option(alloc, "edges"))?;
    Ok(make)
}

// No words but those of arguments.
fn form<'a>(alloc: Global, name: &'a str) -> Command<'a>
    ensures { app_of result ≡ plain_app name.entry.now }
{
    Command::new(alloc, name)
        .no_binary_name(true)
        .disable_help_flag(true)
}

fn word<'a>(alloc: Global, name: &'a str) -> Arg<'a>
    ensures rule { rule_of result ≡ word_rule name.entry.now }
    ensures local { result.global ≡ false }
{
    Arg::new(alloc, name).action(ArgAction::Set).required(true)
}

fn option<'a>(alloc: Global, name: &'a str) -> Arg<'a>
    ensures rule { rule_of result ≡ option_rule name.entry.now }
    ensures local { result.global ≡ false }
{
    word(alloc, name).long(name)
}
