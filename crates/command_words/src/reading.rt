ghost use Rattle.std.specs.Prelude.{◌≡◌, ℕ, Bool, List, IfOk, IfErr, Some, is_some, true, false, map, string_bytes};
ghost use Rattle.command_words.specs.Words.{argument_of, asked_as, words_ask};
ghost use Rattle.command_words.specs.Table.{SpellsNumber, found_with, generator as generator_app, paced as paced_app, reader as reader_app, SpellsFlag, flag_found, stepped as stepped_app, table, text_found};
ghost use Rattle.clap.specs.Words.{app_of, subcommand_rows_of};
ghost use Rattle.command_words.specs.declared.asked.CommandName.{CommandName};
ghost use Rattle.clap.specs.declared.builder.command.Command.TheViews.{out-Command};

use crate::asked::{Asked, CommandName};
use crate::known::is_known;
use clap::error::ErrorKind;
use clap::{Arg, ArgAction, ArgMatches, Command, value_parser};
use std::alloc::{AllocError, Global};

// A command of this name, which may have a pace.
fn paced<'a>(alloc: Global, name: &'a str) -> Result<Command<'a>, AllocError>
    ensures app { IfOk result (λ c. app_of c ≡ paced_app name.entry.now) }
    ensures local { IfOk result (λ c. (out-Command c).has_globals ≡ false) }
{
    let pace = Arg::new(alloc, "preempt")
        .long("preempt")
        .default_value("0")
        .value_parser(value_parser!(u32).range(0..=1_000_000));
    Command::new(alloc, name).arg(pace)
}

// The same, which may also have the steps.
fn stepped<'a>(alloc: Global, name: &'a str) -> Result<Command<'a>, AllocError>
    ensures app { IfOk result (λ c. app_of c ≡ stepped_app name.entry.now) }
    ensures local { IfOk result (λ c. (out-Command c).has_globals ≡ false) }
{
    let steps = Arg::new(alloc, "steps")
        .long("steps")
        .action(ArgAction::SetTrue);
    paced(alloc, name)?.arg(steps)
}

// `generate`, with its number of operations.
fn generator<'a>(alloc: Global) -> Result<Command<'a>, AllocError>
    ensures app { IfOk result (λ c. app_of c ≡ generator_app) }
    ensures local { IfOk result (λ c. (out-Command c).has_globals ≡ false) }
{
    let operations = Arg::new(alloc, "operations")
        .required(true)
        .value_parser(value_parser!(u32).range(1..=60_000));
    Command::new(alloc, "generate").arg(operations)
}

// A command that reads an image, from the file that may be named.
fn reader<'a>(alloc: Global, name: &'a str) -> Result<Command<'a>, AllocError>
    ensures app { IfOk result (λ c. app_of c ≡ reader_app name.entry.now) }
    ensures local { IfOk result (λ c. (out-Command c).has_globals ≡ false) }
{
    let path = Arg::new(alloc, "path");
    Command::new(alloc, name).arg(path)
}

// The commands, as `clap` is told of them. What the program says of words that are wrong is its own text.
fn commands<'a>(alloc: Global) -> Result<Command<'a>, AllocError>
    ensures { IfOk result (λ c. app_of c ≡ table) }
{
    let turns = stepped(alloc, "turns")?;
    let replay = paced(alloc, "replay")?;
    let image = paced(alloc, "image")?;
    let generate = generator(alloc)?;
    let audit = reader(alloc, "audit")?;
    let draw = reader(alloc, "draw")?;
    Command::new(alloc, "ptmac")
        .no_binary_name(true)
        .disable_help_flag(true)
        .disable_help_subcommand(true)
        .subcommand_required(true)
        .subcommand(turns)?
        .subcommand(replay)?
        .subcommand(image)?
        .subcommand(generate)?
        .subcommand(audit)?
        .subcommand(draw)
}

// The command that was found, with its number, and with the steps where they were asked for. One that has no number is asked with 0.
fn asked_in(matches: &ArgMatches<'_>) -> Option<Asked>
    ensures { (name : CommandName) (text : List ℕ) (steps : Bool) (number : ℕ) → text_found name (subcommand_rows_of matches.now) ≡ found_with name text → SpellsFlag (flag_found (subcommand_rows_of matches.now)) steps → SpellsNumber (argument_of name) text number → result ≡ Some (asked_as name steps number) }
{
    let (word, found) = matches.subcommand()?;
    let name = CommandName::named(word)?;
    let steps = found.get_flag("steps");
    match name.argument() {
        Some(argument) => {
            let number = found.get_one::<u32>(argument)?;
            Some(name.asked(steps, number))
        }
        None => Some(name.asked(steps, 0)),
    }
}

/// What the words of the command line ask for, without the program's name. It is `None` exactly where they ask for
/// nothing; lists that `clap` takes and that are not known, as `turns --` or `generate 060`, are among those.
/// Memory is wanted for words that are known alone.
pub fn asked_of(alloc: Global, words: &[String]) -> Result<Option<Asked>, AllocError>
    ensures reads { IfOk result (λ a. a ≡ words_ask (map string_bytes words.now)) }
    ensures memory { IfErr result (λ _. is_some (words_ask (map string_bytes words.now)) ≡ true) }
{
    if !is_known(words) {
        return Ok(None);
    }
    match commands(alloc)?.try_get_matches_from(words) {
        Ok(matches) => Ok(asked_in(&matches)),
        Err(error) if error.kind() == ErrorKind::OutOfMemory => Err(AllocError),
        Err(_) => Ok(None),
    }
}
