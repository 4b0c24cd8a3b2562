ghost use Rattle.std.specs.Prelude.{◌≡◌, false, IfOk, map};
ghost use Rattle.std.specs.Result.{IsOkAnd};
ghost use Rattle.clap.specs.Words.{AddsSubcommand, app_of};
ghost use Rattle.clap.specs.declared.builder.command.Command.TheViews.{out-Command};
ghost use Rattle.pt_cli.specs.Grammar.{IsAuditApp, IsCheckApp, IsMigrateApp, IsProgram, names_app};
ghost use Rattle.pt_cli.specs.Grammar.{top_app};
ghost use Rattle.pt_cli.specs.Grammar.{flag_rule, number_rule, option_rule};
ghost use Rattle.pt_cli.specs.ArgSpec.{IsLocal, IsTaker, TakesToo, defaulted_rule, needed_rule};
ghost use Rattle.pt_cli.specs.ArgSpec.{place_rule};
ghost use Rattle.pt_cli.specs.ArgSpec.{repeated_rule, repeated_text_rule, rule_of_spec, word_rule};

use crate::arg_specs::{AUDIT_SPECS, CHECK_SPECS, MIGRATE_SPECS, NAMES_SPECS};
use crate::help::{AUDIT_AND_STATUS, LOG_AND_STATUS, TROUBLES_AND_STATUS};
use crate::ids::{AUDIT, CHECK, MIGRATE, NAMES};
use clap::builder::ValueParser;
use clap::{Arg, ArgAction, Command as Parser, value_parser};
use pt_host::VERSION;
use std::alloc::{AllocError, Global};

// An argument that a command takes: its id, how it is given, its line of `-h`, and what `--help`
// says where that is more. A line of help has at most 100 characters: 71 of them are left for
// `help` with what `-h` puts behind it, and 90 for a line of `more`.
pub(crate) struct ArgSpec {
    pub id: &'static str,
    pub form: Form,
    pub help: &'static str,
    pub more: Option<&'static str>,
}

// How an argument is given. An option or a flag goes by its id, as `--id`.
pub(crate) enum Form {
    // By its place, where it must be.
    Place,
    // An option with a value, which help calls so.
    Value(&'static str),
    // The same, which must be there.
    Needed(&'static str),
    // The same, which may be given again.
    Repeated(&'static str),
    // The same, and no value is empty.
    RepeatedText(&'static str),
    // An option with a value, and the value that it has where it isn't given.
    Default(&'static str, &'static str),
    // The same, whose value is a number of `u32`.
    Number(&'static str, &'static str),
    // The same, whose value is one of these words.
    Word(&'static str, &'static [&'static str], &'static str),
    // A flag.
    Flag,
    // A flag that goes by this letter too.
    Letter(char),
}

// Whether a word is an option that has a value, as `--name`.
pub(crate) fn takes_value(word: &str) -> bool {
    let Some(id) = word.strip_prefix("--") else {
        return false;
    };
    for specs in [NAMES_SPECS, MIGRATE_SPECS, AUDIT_SPECS, CHECK_SPECS] {
        for spec in specs {
            if spec.id == id {
                return spec.form.has_value();
            }
        }
    }
    false
}

// The parser of the program's words.
pub(crate) fn parser<'a>(alloc: Global) -> Result<Parser<'a>, AllocError>
    ensures { IfOk result (λ parser. IsProgram (app_of parser)) }
{
    let with_names = with_command(top(alloc), names_parser(alloc))?;
    let with_migrate = with_command(with_names, migrate_parser(alloc))?;
    let with_audit = with_command(with_migrate, audit_parser(alloc))?;
    with_command(with_audit, check_parser(alloc))
}

// The parser with no command.
fn top<'a>(alloc: Global) -> Parser<'a>
    ensures { app_of result ≡ top_app }
{
    Parser::new(alloc, "pairtree2ocfl")
        .version(VERSION)
        .about("Carries a Pairtree 0.1 store into an OCFL 1.1 storage root")
        .subcommand_required(true)
}

// A parser with one more command.
fn with_command<'a>(
    parser: Parser<'a>,
    command: Result<Parser<'a>, AllocError>,
) -> Result<Parser<'a>, AllocError>
    ensures { IfOk result (λ grown. IsOkAnd command.entry
        (λ below. AddsSubcommand parser.entry below grown)) }
{
    parser.subcommand(command?)
}

fn names_parser<'a>(alloc: Global) -> Result<Parser<'a>, AllocError>
    ensures { IfOk result (λ parser. (app_of parser ≡ names_app)
        × ((out-Command parser).has_globals ≡ false)) }
{
    let parser = Parser::new(alloc, NAMES).about(
        "Prints the pairpath of an identifier and its place in a layout",
    );
    with_args(alloc, parser, NAMES_SPECS)
}

fn migrate_parser<'a>(alloc: Global) -> Result<Parser<'a>, AllocError>
    ensures { IfOk result (λ parser. IsMigrateApp (app_of parser)
        × ((out-Command parser).has_globals ≡ false)) }
{
    let about = "Carries a Pairtree store into an OCFL storage root";
    with_help(alloc, MIGRATE, about, LOG_AND_STATUS, MIGRATE_SPECS)
}

fn audit_parser<'a>(alloc: Global) -> Result<Parser<'a>, AllocError>
    ensures { IfOk result (λ parser. IsAuditApp (app_of parser)
        × ((out-Command parser).has_globals ≡ false)) }
{
    let about = "Holds an OCFL storage root against the Pairtree store that it was made of";
    with_help(alloc, AUDIT, about, AUDIT_AND_STATUS, AUDIT_SPECS)
}

fn check_parser<'a>(alloc: Global) -> Result<Parser<'a>, AllocError>
    ensures { IfOk result (λ parser. IsCheckApp (app_of parser)
        × ((out-Command parser).has_globals ≡ false)) }
{
    let about = "Tells what in a Pairtree store would stop a run or surprise its owner";
    with_help(alloc, CHECK, about, TROUBLES_AND_STATUS, CHECK_SPECS)
}

// The parser of a command that takes these arguments, with what its help says before them, and
// `--help` also after them.
fn with_help<'a>(
    alloc: Global,
    name: &'a str,
    before: &'a str,
    after: &'a str,
    specs: &[ArgSpec],
) -> Result<Parser<'a>, AllocError>
    ensures { IfOk result (IsTaker name.entry.now (map rule_of_spec specs.now)) }
{
    let parser = Parser::new(alloc, name)
        .about(before)
        .after_long_help(after);
    with_args(alloc, parser, specs)
}

// A parser that takes these arguments too.
fn with_args<'a>(
    alloc: Global,
    parser: Parser<'a>,
    specs: &[ArgSpec],
) -> Result<Parser<'a>, AllocError>
    ensures { IfOk result (λ grown. TakesToo (map rule_of_spec specs.now) parser.entry grown) }
{
    let mut grown = parser;
    for spec in specs {
        grown = grown.arg(spec.told(alloc))?;
    }
    Ok(grown)
}

impl Form {
    // Whether it is an option with a value.
    fn has_value(&self) -> bool {
        !matches!(self, Form::Place | Form::Flag | Form::Letter(_))
    }
}

impl ArgSpec {
    // What the parser is told of it.
    fn told<'a>(&self, alloc: Global) -> Arg<'a>
        ensures { IsLocal (rule_of_spec self.now) result }
    {
        let arg = self.arg(alloc).help(self.help);
        match self.more {
            Some(more) => arg.long_help(more),
            None => arg,
        }
    }

    // The same, but for its help.
    fn arg<'a>(&self, alloc: Global) -> Arg<'a>
        ensures { IsLocal (rule_of_spec self.now) result }
    {
        match self.form {
            Form::Place => place(alloc, self.id),
            Form::Value(name) => option(alloc, self.id, name),
            Form::Needed(name) => needed_option(alloc, self.id, name),
            Form::Repeated(name) => repeated_option(alloc, self.id, name),
            Form::RepeatedText(name) => repeated_text_option(alloc, self.id, name),
            Form::Default(name, default) => defaulted_option(alloc, self.id, name, default),
            Form::Number(name, default) => number(alloc, self.id, name, default),
            Form::Word(name, words, default) => word(alloc, self.id, name, words, default),
            Form::Flag => flag(alloc, self.id),
            Form::Letter(letter) => flag(alloc, self.id).short(letter),
        }
    }
}

fn place<'a>(alloc: Global, id: &'a str) -> Arg<'a>
    ensures { IsLocal (place_rule id.entry.now) result }
{
    Arg::new(alloc, id).required(true)
}

fn option<'a>(alloc: Global, id: &'a str, name: &'a str) -> Arg<'a>
    ensures { IsLocal (option_rule id.entry.now) result }
{
    Arg::new(alloc, id).long(id).value_name(name)
}

fn needed_option<'a>(alloc: Global, id: &'a str, name: &'a str) -> Arg<'a>
    ensures { IsLocal (needed_rule id.entry.now) result }
{
    option(alloc, id, name).required(true)
}

fn repeated_option<'a>(alloc: Global, id: &'a str, name: &'a str) -> Arg<'a>
    ensures { IsLocal (repeated_rule id.entry.now) result }
{
    option(alloc, id, name).action(ArgAction::Append)
}

fn repeated_text_option<'a>(alloc: Global, id: &'a str, name: &'a str) -> Arg<'a>
    ensures { IsLocal (repeated_text_rule id.entry.now) result }
{
    repeated_option(alloc, id, name).value_parser(ValueParser::NonEmptyString)
}

fn defaulted_option<'a>(alloc: Global, id: &'a str, name: &'a str, default: &'a str) -> Arg<'a>
    ensures { IsLocal (defaulted_rule id.entry.now default.entry.now) result }
{
    option(alloc, id, name).default_value(default)
}

fn number<'a>(alloc: Global, id: &'a str, name: &'a str, default: &'a str) -> Arg<'a>
    ensures { IsLocal (number_rule id.entry.now default.entry.now) result }
{
    defaulted_option(alloc, id, name, default).value_parser(value_parser!(u32))
}

fn word<'a>(
    alloc: Global,
    id: &'a str,
    name: &'a str,
    words: &'a [&'a str],
    default: &'a str,
) -> Arg<'a>
    ensures { IsLocal (word_rule id.entry.now words.entry default.entry.now) result }
{
    defaulted_option(alloc, id, name, default).value_parser(words)
}

fn flag<'a>(alloc: Global, id: &'a str) -> Arg<'a>
    ensures { IsLocal (flag_rule id.entry.now) result }
{
    Arg::new(alloc, id).long(id).action(ArgAction::SetTrue)
}
