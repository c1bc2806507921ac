//! The command line for clap.
ghost use Rattle.std.specs.Prelude.{◌≡◌, IfOk, codes, false};
ghost use Rattle.clap.specs.Words.{App, Rule, app_of, new_app, rule_of, with_rule, with_subcommand};
ghost use Rattle.command_line.specs.Asked.{asm_app, check_app, dis_app, explain_option, given, heal_app, judge_app, names_option, needed, one_app, profile_option, record_app, run_app, valued, with_fields, workers_option};
ghost use Rattle.command_line.specs.model.Apps.{IsApp};

use clap::builder::ValueParser;
use clap::{Arg, ArgAction, Command};
use std::alloc::{AllocError, Global};

// The examples that end each help.
const EXAMPLES: &'static str = "\
Examples:
  heal run examples/split.heal           heals the split that a script describes
  heal check b7000000010000009500000000000000
                                         checks a program that always answers 1

heal help COMMAND describes a command, heal help refusals lists the refusals, and
heal --version prints the version.";

const CHECK_EXAMPLE: &'static str = "\
A file has hex digits, the bytes of code, or an object as clang -target bpf -c writes it.

Example:
  $ heal check b7000000010000009500000000000000
  accepted 2 instructions";

const JUDGE_EXAMPLE: &'static str = "\
The record of the clash is given by RECORDHEX, 160 bytes, or 128 to which zeros are added; or by
its fields, --name, --first and --second. A registration REG is NODE.SERIAL, with any of
,stamp=N ,weight=N ,extra=HEX ,size=N ,uptime=N after it, which are 0 by default: size is the
number of names in the half that holds it, uptime is that half's uptime.

Example:
  $ heal judge b7000000010000009500000000000000 --name db --first 1.10,stamp=5 --second 2.20
  first in 2 steps";

const ASM_EXAMPLE: &'static str = "\
Example:
  $ printf 'mov64 r0, 1\\nexit\\n' | heal asm -
  b7000000010000009500000000000000";

const DIS_EXAMPLE: &'static str = "\
Example:
  $ heal dis b7000000010000009500000000000000
  mov64 r0, 1
  exit";

const RUN_EXAMPLE: &'static str = "\
A line is register, unregister, whereis, show, heal or upload with its words. A program to upload is
hex digits, or @FILE, with a path without spaces.

Example:
  $ printf 'register a db 1.10 5 0 - exit\\nheal 0\\nwhereis b db\\n' | heal run -
  yes
  healed 1 names
  1.10";

// Returns a required argument.
fn needed_arg<'a>(alloc: Global, id: &'a str, help: &'a str) -> Arg<'a>
    ensures rule { rule_of result ≡ needed id.entry.now }
    ensures global { result.global ≡ false }
{
    Arg::new(alloc, id)
        .required(true)
        .action(ArgAction::Set)
        .help(help)
}

// Returns an argument that may be left out.
fn given_arg<'a>(alloc: Global, id: &'a str, help: &'a str) -> Arg<'a>
    ensures rule { rule_of result ≡ given id.entry.now }
    ensures global { result.global ≡ false }
{
    Arg::new(alloc, id).action(ArgAction::Set).help(help)
}

// Returns an option with a value.
fn valued_arg<'a>(alloc: Global, id: &'a str, value: &'a str, help: &'a str) -> Arg<'a>
    ensures rule { rule_of result ≡ valued id.entry.now }
    ensures global { result.global ≡ false }
{
    Arg::new(alloc, id)
        .long(id)
        .action(ArgAction::Set)
        .value_name(value)
        .help(help)
}

// Returns the option that selects the profile.
fn profile_arg<'a>(alloc: Global) -> Arg<'a>
    ensures rule { rule_of result ≡ profile_option }
    ensures global { result.global ≡ false }
{
    Arg::new(alloc, "profile")
        .long("profile")
        .action(ArgAction::Set)
        .value_name("1|2")
        .value_parser(ValueParser::unsigned(1, 2))
        .help("The ranges of the verifier. 1: unsigned; 2: unsigned and signed [default: 2]")
}

// Returns the option for an explanation.
fn explain_arg<'a>(alloc: Global, help: &'a str) -> Arg<'a>
    ensures rule { rule_of result ≡ explain_option }
    ensures global { result.global ≡ false }
{
    Arg::new(alloc, "explain")
        .long("explain")
        .action(ArgAction::SetTrue)
        .help(help)
}

// Returns the option that sets the number of workers.
fn workers_arg<'a>(alloc: Global) -> Arg<'a>
    ensures rule { rule_of result ≡ workers_option }
    ensures global { result.global ≡ false }
{
    Arg::new(alloc, "workers")
        .long("workers")
        .action(ArgAction::Set)
        .value_name("W")
        .value_parser(ValueParser::unsigned(1, 16))
        .help("The number of workers that judge clashes, 1 to 16 [default: 4]")
}

// Returns the option that sets the limit of names.
fn names_arg<'a>(alloc: Global) -> Arg<'a>
    ensures rule { rule_of result ≡ names_option }
    ensures global { result.global ≡ false }
{
    Arg::new(alloc, "names")
        .long("names")
        .action(ArgAction::Set)
        .value_name("N")
        .value_parser(ValueParser::unsigned(1, 1_048_576))
        .help("The number of names that each half may have, 1 to 1048576 [default: 4096]")
}

// Returns `run`: a script, and its options.
fn run_command<'a>(alloc: Global) -> Result<Command<'a>, AllocError>
    ensures { IfOk result (λ c. IsApp c run_app) }
{
    let script = one_command(
        alloc,
        OneArgument {
            name: "run",
            about: "Runs a script about two halves of a cluster: their names, and how a split heals",
            id: "FILE",
            help: "The file of the script, or - for standard input",
            example: RUN_EXAMPLE,
        },
    );
    let help = "Narrates each healing on standard error";
    let with_workers = with_arg(script, workers_arg(alloc));
    let with_names = with_arg(with_workers, names_arg(alloc));
    with_arg(with_names, explain_arg(alloc, help))
}

// Returns `check`: code, and an option.
fn check_command<'a>(alloc: Global) -> Result<Command<'a>, AllocError>
    ensures { IfOk result (λ c. IsApp c check_app) }
{
    let code = one_command(
        alloc,
        OneArgument {
            name: "check",
            about: "Checks whether the verifier accepts a program",
            id: "CODE",
            help: "The program: hex digits, or @FILE",
            example: CHECK_EXAMPLE,
        },
    );
    let help = "Prints the verifier's state before each instruction on standard error";
    let with_profile = with_arg(code, profile_arg(alloc));
    with_arg(with_profile, explain_arg(alloc, help))
}

// Returns `judge` with its code, and a record at a word.
fn record_command<'a>(alloc: Global) -> Result<Command<'a>, AllocError>
    ensures { IfOk result (λ c. IsApp c record_app) }
{
    let code = one_command(
        alloc,
        OneArgument {
            name: "judge",
            about: "Judges a clash by a program: the first, the second or neither keeps the name",
            id: "CODE",
            help: "The program: hex digits, or @FILE",
            example: JUDGE_EXAMPLE,
        },
    );
    let record = given_arg(alloc, "RECORDHEX", "The record of the clash, in hex digits");
    let word = valued_arg(alloc, "word", "W", "The word of the clash [default: 0]");
    let with_record = with_arg(code, record);
    with_arg(with_record, word)
}

// Adds the fields of a record: a name, and two registrations.
fn fields_command<'a>(alloc: Global) -> Result<Command<'a>, AllocError>
    ensures { IfOk result (λ c. IsApp c (with_fields record_app)) }
{
    let name = valued_arg(alloc, "name", "NAME", "The name that clashes");
    let first = valued_arg(alloc, "first", "REG", "The first registration");
    let second = valued_arg(alloc, "second", "REG", "The second registration");
    let with_name = with_arg(record_command(alloc), name);
    let with_first = with_arg(with_name, first);
    with_arg(with_first, second)
}

// Returns `judge`: code, a clash, and an option.
fn judge_command<'a>(alloc: Global) -> Result<Command<'a>, AllocError>
    ensures { IfOk result (λ c. IsApp c judge_app) }
{
    let help = "Prints on standard error what the program reads and answers";
    with_arg(fields_command(alloc), explain_arg(alloc, help))
}

// Returns `asm`: a file.
fn asm_command<'a>(alloc: Global) -> Result<Command<'a>, AllocError>
    ensures { IfOk result (λ c. IsApp c asm_app) }
{
    one_command(
        alloc,
        OneArgument {
            name: "asm",
            about: "Assembles a text, and prints its code in hex digits",
            id: "FILE",
            help: "The file of the text, or - for standard input",
            example: ASM_EXAMPLE,
        },
    )
}

// Returns `dis`: code alone.
fn dis_command<'a>(alloc: Global) -> Result<Command<'a>, AllocError>
    ensures { IfOk result (λ c. IsApp c dis_app) }
{
    one_command(
        alloc,
        OneArgument {
            name: "dis",
            about: "Disassembles code, and prints its text",
            id: "CODE",
            help: "The code: hex digits, or @FILE",
            example: DIS_EXAMPLE,
        },
    )
}

// A subcommand with one argument: their names, and what help prints of them.
#[derive(Clone, Copy)]
struct OneArgument<'a> {
    name: &'a str,
    about: &'a str,
    id: &'a str,
    help: &'a str,
    example: &'a str,
}

// Returns a subcommand with one argument.
fn one_command<'a>(alloc: Global, one: OneArgument<'a>) -> Result<Command<'a>, AllocError>
    ensures { IfOk result (λ c. IsApp c (one_app one.entry.name.now one.entry.id.now)) }
{
    Command::new(alloc, one.name)
        .about(one.about)
        .after_help(one.example)
        .arg(needed_arg(alloc, one.id, one.help))
}

// Adds an argument that isn't global. It takes a result, so that a chain of calls has no early return.
fn with_arg<'a>(
    command: Result<Command<'a>, AllocError>,
    arg: Arg<'a>,
) -> Result<Command<'a>, AllocError>
    requires { arg.global ≡ false }
    ensures { (app : App) (rule : Rule) → IfOk command.entry (λ c. IsApp c app) → rule_of arg.entry ≡ rule
        → IfOk result (λ c. IsApp c (with_rule app rule)) }
{
    command?.arg(arg)
}

// Adds a subcommand. It takes results, so that a chain of calls has no early return.
fn with_command<'a>(
    command: Result<Command<'a>, AllocError>,
    subcommand: Result<Command<'a>, AllocError>,
) -> Result<Command<'a>, AllocError>
    ensures { (whole part : App) → IfOk command.entry (λ c. app_of c ≡ whole) → IfOk subcommand.entry (λ s. IsApp s part)
        → IfOk result (λ c. app_of c ≡ with_subcommand whole part.top) }
{
    let command = command?;
    command.subcommand(subcommand?)
}

// Returns the command without its subcommands.
fn bare_command<'a>(alloc: Global) -> Result<Command<'a>, AllocError>
    ensures { IfOk result (λ c. app_of c ≡ new_app (codes "heal")) }
{
    Command::new(alloc, "heal")
        .about("Heals splits of a cluster's names by proved code")
        .after_help(EXAMPLES)
        .bin_name("heal")
}

// Returns the whole command line.
pub(crate) fn heal<'a>(alloc: Global) -> Result<Command<'a>, AllocError>
    ensures { IfOk result (λ c. app_of c ≡ heal_app) }
{
    let checking = with_command(bare_command(alloc), check_command(alloc));
    let judging = with_command(checking, judge_command(alloc));
    let assembling = with_command(judging, asm_command(alloc));
    let disassembling = with_command(assembling, dis_command(alloc));
    let running = with_command(disassembling, run_command(alloc));
    Ok(running?.subcommand_required(true))
}
