//! The options of the command line.
ghost use Rattle.std.specs.Prelude.{◌≡◌, ◌++◌, All, IfOk, IsOkAnd, false, fold, map, true};
ghost use Rattle.clap.specs.Words.{app_of, new_app, rule_of, shape_of, with_rule, with_subcommand};
ghost use Rattle.vs_program_words.specs.Options.{AreOptions, certify_options, check_options, choice_option, elab_options, preprocess_options};
ghost use Rattle.vs_program_words.specs.Options.{bare_options, certificate_option, explain_option, file_option, flag_option, number_option, option_of};
ghost use Rattle.vs_program_words.specs.Options.{certify_rules, check_rules, output_option, pair_option, policy_option, race_options, race_rules, run_options};
ghost use Rattle.vs_program_words.specs.Options.{rules_option, run_rules, from_option, seed_option, steps_option, top_option, tries_option, until_option};
ghost use Rattle.vs_program_words.specs.Options.{define_option, files_option, folder_option, letter_option, shared_rules, short_option, some_files_option};

use clap::{Arg, ArgAction, Command};
use std::alloc::{AllocError, Global};

/// What `--version` prints: the version, and the line of the kit that builds the program.
const VERSION: &str = "0.1.0\nrattle-kit-13f logic dac8208d650f15bf";

/// What stands below the list of the subcommands.
const AFTER: &str =
    "Files are preprocessed, and are one source together. Without files the source is
read from standard input as it is, and --top and --until are wanted. So

  vsim run -I include tb.v alu.v
  vsim run --top tb --until 100 <tb.v
  vsim certify --top tb <tb.v >tb.cert
  cat tb.cert tb.v | vsim run --top tb --until 100 --cert

Exit status: 0 done, 1 refused (or `no`, `not made`, or a race), 2 step limit
(or no race found), 3 out of memory, read error or write error, 64 wrong
arguments.";

/// What stands below the options of `run`.
const AFTER_RUN: &str = "--out lines writes the log: what `$display` and `$strobe` print;
--out vcd writes the value change dump of all signals that are no arrays;
--vcd FILE writes the dump to a file, beside the log.
With files the top is the one module that no module instantiates, the run has
no end but its own, and the time may have a unit: s, ms, us, ns, ps or fs.

Examples: vsim run --vcd tb.vcd tb.v alu.v
          vsim run --top tb --until 100 --out vcd <tb.v >tb.vcd

Exit status: 0 done, 1 refused, 2 step limit, 3 out of memory, read error or
write error, 64 wrong arguments.";

/// What stands below the options of `check`.
const AFTER_CHECK: &str =
    "Without files the certificate is the first line of standard input, and the
source is what follows it; with files it is all of standard input, and with
--certificate that file. So

  vsim check --certificate tb.cert tb.v
  cat tb.cert tb.v | vsim check --top tb

Exit status: 0 yes, 1 no or refused, 3 out of memory, read error or
write error, 64 wrong arguments.";

/// What stands below the options of `certify`.
const AFTER_CERTIFY: &str = "Example: vsim certify -o tb.cert tb.v

Exit status: 0 done, 1 not made or refused, 3 out of memory, read error or
write error, 64 wrong arguments.";

/// What stands below the options of `race`.
const AFTER_RACE: &str =
    "Prints a signal that has two values by the order of events alone, or that none
was found, which proves nothing. The same words give the same answer.

Example: vsim race --top tb --until 100 <tb.v

Exit status: 0 certified, so there is none, 1 shown or refused, 2 none found,
3 out of memory, read error or write error, 64 wrong arguments.";

/// What stands below the options of `elab`.
const AFTER_ELAB: &str = "Example: vsim elab --top tb <tb.v

Exit status: 0 done, 1 refused, 3 out of memory, read error or write error,
64 wrong arguments.";

/// What stands below the options of `preprocess`.
const AFTER_PREPROCESS: &str = "Example: vsim preprocess -D WIDTH=8 -I include tb.v alu.v >plain.v

Exit status: 0 done, 1 refused, 3 out of memory, read error or write error,
64 wrong arguments.";

static ORDERS: [&str; 2] = ["fifo", "lifo"];

static TEXTS: [&str; 2] = ["lines", "vcd"];

static GRAINS: [&str; 2] = ["block", "statement"];

static RULES: [&str; 2] = ["narrow", "wide"];

// An option `--name` with one value.
fn option<'a>(alloc: Global, name: &'a str, help: &'a str) -> Arg<'a>
    ensures option { rule_of result ≡ option_of name.entry.now }
    ensures local { result.global ≡ false }
{
    Arg::new(alloc, name)
        .long(name)
        .help(help)
        .action(ArgAction::Set)
}

// A flag `--name`.
fn flag<'a>(alloc: Global, name: &'a str, help: &'a str) -> Arg<'a>
    ensures option { rule_of result ≡ flag_option name.entry.now }
    ensures local { result.global ≡ false }
{
    Arg::new(alloc, name)
        .long(name)
        .help(help)
        .action(ArgAction::SetTrue)
}

// An option with a number from 0 to 2^62 - 1.
fn number<'a>(alloc: Global, name: &'a str, help: &'a str) -> Arg<'a>
    ensures option { rule_of result ≡ number_option name.entry.now }
    ensures local { result.global ≡ false }
{
    option(alloc, name, help)
        .value_name("N")
        .value_parser(clap::value_parser!(u64).range(0..=4611686018427387903))
}

// The option with the time up to which a design runs. By the strict table it is a number that can't be left out; else it is any text.
fn until<'a>(alloc: Global, strict: bool) -> Arg<'a>
    ensures option { rule_of result ≡ until_option strict }
    ensures local { result.global ≡ false }
{
    const HELP: &str =
        "The time up to which it runs, in ticks; with files also as 10us, or left out";
    if strict {
        number(alloc, "until", HELP).required(true)
    } else {
        option(alloc, "until", HELP).value_name("N")
    }
}

// The option with the step limit.
fn steps<'a>(alloc: Global) -> Arg<'a>
    ensures option { rule_of result ≡ steps_option }
    ensures local { result.global ≡ false }
{
    number(alloc, "steps", "The most steps that the run may take").default_value("10000000")
}

// The option with the number of orders.
fn tries<'a>(alloc: Global) -> Arg<'a>
    ensures option { rule_of result ≡ tries_option }
    ensures local { result.global ≡ false }
{
    number(alloc, "tries", "How many orders of events are tried").default_value("100")
}

// The option with the number that orders are drawn from.
fn seed<'a>(alloc: Global) -> Arg<'a>
    ensures option { rule_of result ≡ seed_option }
    ensures local { result.global ≡ false }
{
    number(alloc, "seed", "The number that the orders are drawn from").default_value("0")
}

// The option with the time before which orders are the first one.
fn from<'a>(alloc: Global) -> Arg<'a>
    ensures option { rule_of result ≡ from_option }
    ensures local { result.global ≡ false }
{
    number(
        alloc,
        "from",
        "The moment before which the first order is kept, in ticks",
    )
    .default_value("0")
}

// An option whose value is one of some words, and one of them where it is left out.
fn choice<'a>(
    alloc: Global,
    name: &'a str,
    help: &'a str,
    words: &'a [&'a str],
    default: &'a str,
) -> Arg<'a>
    ensures option { rule_of result ≡ choice_option name.entry.now words.entry default.entry.now }
    ensures local { result.global ≡ false }
{
    option(alloc, name, help)
        .value_parser(words)
        .default_value(default)
}

// The option with the name of the top module, which by the strict table can't be left out.
fn top<'a>(alloc: Global, strict: bool) -> Arg<'a>
    ensures option { rule_of result ≡ top_option strict }
    ensures local { result.global ≡ false }
{
    option(
        alloc,
        "top",
        "The top module; with files it may be left out where one module is instantiated by none",
    )
    .value_name("NAME")
    .required(strict)
}

// The option with the order of events: one of two words by the strict table, else any text.
fn policy<'a>(alloc: Global, strict: bool, orders: &'a [&'a str]) -> Arg<'a>
    ensures option { rule_of result ≡ policy_option strict orders.entry }
    ensures local { result.global ≡ false }
{
    const HELP: &str = "Which enabled event is next; also list:0,2,1 or list:17..22=1,30=2";
    if strict {
        choice(alloc, "policy", HELP, orders, "fifo")
    } else {
        option(alloc, "policy", HELP).default_value("fifo")
    }
}

// The option with the rules by which certificates are read and made.
fn rules<'a>(alloc: Global, words: &'a [&'a str]) -> Arg<'a>
    ensures option { rule_of result ≡ rules_option words.entry }
    ensures local { result.global ≡ false }
{
    const HELP: &str =
        "Which certificates there are: of versions 1 and 2, or by wide also of version 3";
    choice(alloc, "rules", HELP, words, "narrow")
}

// An option with the name of a file.
fn file<'a>(alloc: Global, name: &'a str, help: &'a str) -> Arg<'a>
    ensures option { rule_of result ≡ file_option name.entry.now }
    ensures local { result.global ≡ false }
{
    option(alloc, name, help).value_name("FILE")
}

// The option with the file of a certificate.
fn certificate<'a>(alloc: Global) -> Arg<'a>
    ensures option { rule_of result ≡ certificate_option }
    ensures local { result.global ≡ false }
{
    file(alloc, "certificate", "The file of the certificate")
}

// The option with the file that the text goes to.
fn output<'a>(alloc: Global) -> Arg<'a>
    ensures option { rule_of result ≡ output_option }
    ensures local { result.global ≡ false }
{
    Arg::new(alloc, "output")
        .short('o')
        .value_name("FILE")
        .help("The file that the text goes to, in place of standard output")
        .action(ArgAction::Set)
}

// The option with two files that the dumps of a race go to.
fn pair<'a>(alloc: Global) -> Arg<'a>
    ensures option { rule_of result ≡ pair_option }
    ensures local { result.global ≡ false }
{
    file(
        alloc,
        "vcd-pair",
        "The two files that the dumps of a race go to",
    )
    .num_args(2)
}

// The flag that asks for what a refusal means.
fn explain<'a>(alloc: Global) -> Arg<'a>
    ensures option { rule_of result ≡ explain_option }
    ensures local { result.global ≡ false }
{
    flag(
        alloc,
        "explain",
        "Also say what a refusal means, and where it stands",
    )
}

// The flag that asks for faults of one line.
fn short<'a>(alloc: Global) -> Arg<'a>
    ensures option { rule_of result ≡ short_option }
    ensures local { result.global ≡ false }
{
    flag(
        alloc,
        "short",
        "With files, tell a fault in one line and not what it means",
    )
}

// An option of one letter that may be given several times, each with a value.
fn letter<'a>(alloc: Global, name: &'a str, letter: char, value: &'a str, help: &'a str) -> Arg<'a>
    ensures option { rule_of result ≡ letter_option name.entry.now letter }
    ensures local { result.global ≡ false }
{
    Arg::new(alloc, name)
        .short(letter)
        .value_name(value)
        .help(help)
        .action(ArgAction::Append)
}

// The option that defines a macro.
fn define<'a>(alloc: Global) -> Arg<'a>
    ensures option { rule_of result ≡ define_option }
    ensures local { result.global ≡ false }
{
    letter(
        alloc,
        "define",
        'D',
        "N[=TEXT]",
        "Define a macro before the first file; without a text it is 1",
    )
}

// The option that names a folder of included files.
fn folder<'a>(alloc: Global) -> Arg<'a>
    ensures option { rule_of result ≡ folder_option }
    ensures local { result.global ≡ false }
{
    letter(
        alloc,
        "folder",
        'I',
        "FOLDER",
        "A folder in which included files are sought",
    )
}

// The files of a call.
fn files<'a>(alloc: Global) -> Arg<'a>
    ensures option { rule_of result ≡ files_option }
    ensures local { result.global ≡ false }
{
    Arg::new(alloc, "files")
        .value_name("FILE")
        .help("The files, in the order in which they are read; - is standard input")
        .action(ArgAction::Append)
}

// The same, of which there is one at least.
fn some_files<'a>(alloc: Global) -> Arg<'a>
    ensures option { rule_of result ≡ some_files_option }
    ensures local { result.global ≡ false }
{
    files(alloc).required(true)
}

// Options, and behind them those of every subcommand, with the files of a call.
fn with_shared<'a>(
    alloc: Global,
    own: Vec<Arg<'a>>,
    files: Arg<'a>,
) -> Result<Vec<Arg<'a>>, AllocError>
    requires own { All (λ a. a.global ≡ false) own.items }
    requires files { files.global ≡ false }
    ensures rules { IfOk result (λ list. map rule_of list.items ≡ map rule_of own.entry.items ++ shared_rules (rule_of files.entry)) }
    ensures local { IfOk result (λ list. All (λ a. a.global ≡ false) list.items) }
{
    let mut shared = vec![in alloc;
        explain(alloc),
        short(alloc),
        define(alloc),
        folder(alloc),
        files,
    ]?;
    let mut list = own;
    list.append(&mut shared)?;
    Ok(list)
}

// A subcommand with these options.
fn command_of<'a>(
    alloc: Global,
    name: &'a str,
    about: &'a str,
    after: &'a str,
    options: Vec<Arg<'a>>,
) -> Result<Command<'a>, AllocError>
    requires { All (λ a. a.global ≡ false) options.items }
    ensures { IfOk result (λ c. shape_of c ≡ (fold with_rule (new_app name.entry.now) (map rule_of options.entry.items)).top) }
{
    Command::new(alloc, name)
        .about(about)
        .after_help(after)
        .args(options)
}

// `preprocess`.
fn preprocess_command<'a>(alloc: Global) -> Result<Command<'a>, AllocError>
    ensures { IfOk result (λ c. shape_of c ≡ preprocess_options) }
{
    let own = vec![in alloc; output(alloc)]?;
    let options = with_shared(alloc, own, some_files(alloc))?;
    command_of(
        alloc,
        "preprocess",
        "Writes the text that files are read as: without macros and included files",
        AFTER_PREPROCESS,
        options,
    )
}

// `elab`.
fn elab_command<'a>(alloc: Global, strict: bool) -> Result<Command<'a>, AllocError>
    ensures { IfOk result (λ c. shape_of c ≡ elab_options strict) }
{
    let own = vec![in alloc; top(alloc, strict)]?;
    let options = with_shared(alloc, own, files(alloc))?;
    command_of(
        alloc,
        "elab",
        "Lists the signals, assignments and processes of a design",
        AFTER_ELAB,
        options,
    )
}

// `check`, with the words that its option takes.
fn check_command<'a>(
    alloc: Global,
    strict: bool,
    words: &'a [&'a str],
) -> Result<Command<'a>, AllocError>
    ensures { IfOk result (λ c. shape_of c ≡ check_options strict words.entry) }
{
    let own = vec![in alloc; top(alloc, strict), certificate(alloc), rules(alloc, words)]?;
    let options = with_shared(alloc, own, files(alloc))?;
    command_of(
        alloc,
        "check",
        "Checks a certificate, which standard input begins with, of a design",
        AFTER_CHECK,
        options,
    )
}

// `certify`, with the words that its options take.
fn certify_command<'a>(
    alloc: Global,
    strict: bool,
    grains: &'a [&'a str],
    words: &'a [&'a str],
) -> Result<Command<'a>, AllocError>
    ensures { IfOk result (λ c. shape_of c ≡ certify_options strict grains.entry words.entry) }
{
    let grain = choice(
        alloc,
        "grain",
        "How finely processes may be interleaved",
        grains,
        "block",
    );
    let race = flag(
        alloc,
        "race",
        "Where none is made, also look for a race, and explain it",
    );
    let own = vec![in alloc;
        top(alloc, strict),
        grain,
        rules(alloc, words),
        race,
        output(alloc),
    ]?;
    let options = with_shared(alloc, own, files(alloc))?;
    command_of(
        alloc,
        "certify",
        "Makes a certificate of a design",
        AFTER_CERTIFY,
        options,
    )
}

// The options that `run` alone has, with the words that they take.
fn run_list<'a>(
    alloc: Global,
    strict: bool,
    orders: &'a [&'a str],
    texts: &'a [&'a str],
    words: &'a [&'a str],
) -> Result<Vec<Arg<'a>>, AllocError>
    ensures rules { IfOk result (λ list. map rule_of list.items ≡ run_rules strict orders.entry texts.entry words.entry) }
    ensures local { IfOk result (λ list. All (λ a. a.global ≡ false) list.items) }
{
    let out = choice(
        alloc,
        "out",
        "What to write: the log, or the dump",
        texts,
        "lines",
    );
    let dump = file(
        alloc,
        "vcd",
        "The file that the dump goes to, beside the log on standard output",
    );
    let cert = flag(
        alloc,
        "cert",
        "Standard input begins with a certificate: run only if it is accepted",
    );
    let list = vec![in alloc;
        top(alloc, strict),
        until(alloc, strict),
        steps(alloc),
        policy(alloc, strict, orders),
        out,
        dump,
        cert,
        certificate(alloc),
        rules(alloc, words),
    ]?;
    Ok(list)
}

// `run`, with the words that its options take.
fn run_command<'a>(
    alloc: Global,
    strict: bool,
    orders: &'a [&'a str],
    texts: &'a [&'a str],
    words: &'a [&'a str],
) -> Result<Command<'a>, AllocError>
    ensures { IfOk result (λ c. shape_of c ≡ run_options strict orders.entry texts.entry words.entry) }
{
    let own = run_list(alloc, strict, orders, texts, words)?;
    let options = with_shared(alloc, own, files(alloc))?;
    command_of(alloc, "run", "Runs a design", AFTER_RUN, options)
}

// The options that `race` alone has, with the words that one takes.
fn race_list<'a>(
    alloc: Global,
    strict: bool,
    words: &'a [&'a str],
) -> Result<Vec<Arg<'a>>, AllocError>
    ensures rules { IfOk result (λ list. map rule_of list.items ≡ race_rules strict words.entry) }
    ensures local { IfOk result (λ list. All (λ a. a.global ≡ false) list.items) }
{
    let list = vec![in alloc;
        top(alloc, strict),
        until(alloc, strict),
        steps(alloc),
        tries(alloc),
        seed(alloc),
        from(alloc),
        pair(alloc),
        rules(alloc, words),
    ]?;
    Ok(list)
}

// `race`, with the words that its option takes.
fn race_command<'a>(
    alloc: Global,
    strict: bool,
    words: &'a [&'a str],
) -> Result<Command<'a>, AllocError>
    ensures { IfOk result (λ c. shape_of c ≡ race_options strict words.entry) }
{
    let own = race_list(alloc, strict, words)?;
    let options = with_shared(alloc, own, files(alloc))?;
    command_of(
        alloc,
        "race",
        "Looks for two orders of events under which a design has different values",
        AFTER_RACE,
        options,
    )
}

// A command with one more subcommand.
fn with_command<'a>(
    command: Command<'a>,
    made: Result<Command<'a>, AllocError>,
) -> Result<Command<'a>, AllocError>
    requires { IfOk made (λ s. (shape_of s).is_plain ≡ true) }
    ensures { IfOk result (λ c. IsOkAnd made.entry (λ s. app_of c ≡ with_subcommand (app_of command.entry) (shape_of s))) }
{
    command.subcommand(made?)
}

// The program without its subcommands.
fn bare_command<'a>(alloc: Global) -> Command<'a>
    ensures { app_of result ≡ bare_options }
{
    Command::new(alloc, "vsim")
        .about("Simulates a Verilog design, and checks that it doesn't depend on the simulator")
        .version(VERSION)
        .after_help(AFTER)
        .subcommand_required(true)
}

/// The program, with its subcommands. By the strict table, which is that of a call without files, the top and the moment can't be left out, and the
/// moment and the order are what they are in every call; else they are any text.
pub(crate) fn vsim_command<'a>(alloc: Global, strict: bool) -> Result<Command<'a>, AllocError>
    ensures { IfOk result (λ c. AreOptions strict (app_of c)) }
{
    let words = RULES.as_slice();
    let command = bare_command(alloc);
    let command = with_command(
        command,
        run_command(alloc, strict, ORDERS.as_slice(), TEXTS.as_slice(), words),
    )?;
    let command = with_command(command, check_command(alloc, strict, words))?;
    let command = with_command(
        command,
        certify_command(alloc, strict, GRAINS.as_slice(), words),
    )?;
    let command = with_command(command, race_command(alloc, strict, words))?;
    let command = with_command(command, elab_command(alloc, strict))?;
    with_command(command, preprocess_command(alloc))
}
