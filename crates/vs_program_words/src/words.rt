//! The words of a command line.
ghost use Rattle.std.specs.Prelude.{◌≡◌, ◌++◌, ◌&&◌, ◌||◌, not, ℕ, List, [], IfErr, IfOk, IsErrAnd, MatchOption, Some, codes, false, is_some, map, option_map, true, unwrap_or};
ghost use Rattle.clap.specs.Words.{first_value, found_of, matched_of, one_text, raw_values};
ghost use Rattle.vs_program_words.specs.Asks.{AskInVain, Asks, AsksAs, AsksFor, AsksRace, NamesFiles, NamesOutputs, WordsAsk, WordsFail, is_dump};
ghost use Rattle.vs_program_words.specs.Asks.{CallFails, IsInVain, IsPolicy, IsPolicyIn, LooseFails, flag_named, grain_named, has_certificate, rules_named};
ghost use Rattle.vs_program_words.specs.Asks.{has_moment, has_ticks, has_top, lacks_top, name_of, run};
ghost use Rattle.vs_program_words.specs.FileWords.{due_after, is_file, is_named, names_file, option_values};
ghost use Rattle.vs_program_words.specs.Choices.{is_choices};
ghost use Rattle.vs_program_words.specs.passes.Policies.{PolicyFails, UntilFails};
ghost use Rattle.vs_program_words.specs.Moments.{IsNumber, IsUntil};
ghost use Rattle.vs_program_words.specs.Given.{AreAllGiven, AreGiven, AreGivenAs, AreGivenToRace, IsCount, IsFlag};
ghost use Rattle.vs_program_words.specs.declared.words.WordsFault.TheVariants.{Memory, Refused};

use crate::choices::{Choice, choices_of};
use crate::moments::{GREATEST, Moment, moment_of};
use crate::options::vsim_command;
use clap::error::ErrorKind;
use clap::{ArgMatches, Error};
use std::alloc::{AllocError, Global};
use vs_certificate::{ClaimedGrain, Rules};
use vs_design::{Ticks, TimeUnit};

/// Which text goes to standard output.
#[derive(Clone, Copy, PartialEq, Eq, Debug)]
pub enum OutputText {
    /// The lines of `$display` and `$strobe`.
    Lines,
    /// The value change dump.
    Dump,
}

/// The order of enabled items that the words of `vsim run` can ask for.
#[derive(Clone, Copy, PartialEq, Eq, Debug)]
pub enum Order {
    /// The first of the list is next.
    Fifo,
    /// The last of the list is next.
    Lifo,
    /// That which the choices of the call name is next, and the first of the list where they name none.
    Listed,
}

/// What the words of `vsim run` ask for.
#[derive(Clone, Copy)]
pub struct Request<'a> {
    /// The top module's name; empty where it is left out.
    pub top: &'a str,
    /// The time up to which the design runs: in ticks, or in the unit of the call where that has one.
    pub until: Ticks,
    /// The most steps that the run may take; there are fewer of them than of ticks.
    pub steps: Ticks,
    /// Which enabled item is next.
    pub order: Order,
    /// The text that is asked for.
    pub text: OutputText,
    /// Which certificates a run takes that takes one.
    pub rules: Rules,
}

/// What the words of `vsim race` ask for.
#[derive(Clone, Copy)]
pub struct Hunt<'a> {
    /// The top module's name; empty where it is left out.
    pub top: &'a str,
    /// The moment up to which the design runs: in ticks, or in the unit of the call where that has one.
    pub until: Ticks,
    /// The most steps that each run may take; there are fewer of them than of ticks.
    pub steps: Ticks,
    /// How many orders are tried.
    pub tries: Ticks,
    /// The number that the orders are drawn from.
    pub seed: Ticks,
    /// The moment before which the first order is kept.
    pub from: Ticks,
    /// Which certificates there are, of which the first try makes one.
    pub rules: Rules,
}

/// What the words of a call ask for.
#[derive(Clone, Copy)]
pub enum Subcommand<'a> {
    /// `vsim run`: a run.
    Run(Request<'a>),
    /// `vsim run --cert`: a run, in the order `Fifo`, of a design whose certificate is accepted.
    RunCertified(Request<'a>),
    /// `vsim check`: the verdict on a certificate of the design with this top, by these rules.
    Check(&'a str, Rules),
    /// `vsim certify`: a certificate of the design with this top, at this grain, by these rules.
    Certify(&'a str, ClaimedGrain, Rules),
    /// `vsim race`: two orders of events under which the design has different values.
    Race(Hunt<'a>),
    /// `vsim elab`: the listing of the design with this top.
    Elab(&'a str),
    /// `vsim preprocess`: the text that files are read as.
    Preprocess,
}

/// The files of a call.
#[derive(Drop)]
pub struct Sources<'a> {
    /// Their names, in order; without one the source is standard input, as it is.
    pub files: Vec<&'a str>,
    /// The macros that are defined before the first file, each as `N` or as `N=TEXT`.
    pub defines: Vec<&'a str>,
    /// The folders in which included files are sought, in order.
    pub folders: Vec<&'a str>,
}

/// The files that a call writes.
#[derive(Clone, Copy)]
pub struct Outputs<'a> {
    /// That of the text, in place of standard output: of a certificate, or of a source.
    pub text: Option<&'a str>,
    /// That of the dump of a run, whose lines go to standard output.
    pub dump: Option<&'a str>,
    /// Those of the two dumps of a race.
    pub pair: Option<(&'a str, &'a str)>,
}

/// A call.
#[derive(Drop)]
pub struct Call<'a> {
    /// What it asks for.
    pub subcommand: Subcommand<'a>,
    /// Whether the top is left out, and is to be found in the source.
    pub finds_top: bool,
    /// The unit of the time up to which a design runs, where it isn't the tick.
    pub unit: Option<TimeUnit>,
    /// The choices of an order that lists them.
    pub choices: Vec<Choice>,
    /// Its files.
    pub sources: Sources<'a>,
    /// The file of its certificate, where it isn't on standard input.
    pub certificate: Option<&'a str>,
    /// The files that it writes.
    pub outputs: Outputs<'a>,
    /// Whether a refusal is explained on standard error.
    pub explains: bool,
    /// Whether a fault with files is told in one line.
    pub short: bool,
    /// Whether a race is sought where no certificate is made.
    pub seeks_race: bool,
}

/// Why the words of a call ask for nothing.
#[derive(Drop)]
pub enum WordsFault<'a> {
    /// `clap` refuses them, or they call for help or for the version.
    Refused(Error),
    /// They name files, and `clap` refuses them by the table of calls with files.
    Misused(Error),
    /// They name files, and this is no moment.
    NoUntil(&'a str),
    /// They name files, and this is no order of events.
    NoOrder(&'a str),
    /// They ask for a certified run in another order than the first one.
    OrderOfCertified,
    /// They ask for the dump on standard output, and in a file too.
    TwoDumps,
    /// The top or the files are none.
    Unread,
    /// A growth of memory was refused.
    Memory,
}

impl<'a> From<Error> for WordsFault<'a> {
    ghost from_gives = { λ cause fault. fault ≡ Refused cause };

    fn from(cause: Error) -> WordsFault<'a> {
        WordsFault::Refused(cause)
    }
}

impl<'a> From<AllocError> for WordsFault<'a> {
    ghost from_gives = { λ _ fault. fault ≡ Memory };

    fn from(_cause: AllocError) -> WordsFault<'a> {
        WordsFault::Memory
    }
}

// The number of an option.
fn number_of(matches: &ArgMatches, name: &str) -> Ticks
    requires { IsCount (one_text (found_of matches.now) name.now) }
    ensures { IsNumber (one_text (found_of matches.now) name.now) result.count }
{
    Ticks {
        count: matches.get_one::<u64>(name).unwrap(),
    }
}

// Whether a flag is given.
fn has_flag(matches: &ArgMatches, name: &str) -> bool
    requires { IsFlag (one_text (found_of matches.now) name.now) }
    ensures { result ≡ flag_named (one_text (found_of matches.now) name.now) }
{
    matches.get_flag(name)
}

// The moment that the matches ask for.
fn until_of<'a>(matches: &ArgMatches<'a>) -> Result<Moment, WordsFault<'a>>
    ensures err { IfErr result (UntilFails (first_value (found_of matches.now) (codes "until"))) }
    ensures ok { IfOk result (λ m. IsUntil (first_value (found_of matches.now) (codes "until")) m.count.count m.unit) }
{
    match matches.get_str("until") {
        None => Ok(Moment {
            count: Ticks { count: GREATEST },
            unit: None,
        }),
        Some(text) => match moment_of(text) {
            Some(moment) => Ok(moment),
            None => Err(WordsFault::NoUntil(text)),
        },
    }
}

/// The order of events that the matches ask for.
#[derive(Drop)]
struct Policy {
    order: Order,
    choices: Vec<Choice>,
}

// The choices that a word lists behind `list:`.
fn list_of(alloc: Global, word: &str) -> Result<Option<Vec<Choice>>, AllocError>
    ensures { IfOk result (λ o. MatchOption o ((text : List ℕ) → word.now ≡ codes "list:" ++ text → is_choices text ≡ false)
        (λ choices. (text : List ℕ) × (word.now ≡ codes "list:" ++ text) × (is_choices text ≡ true))) }
{
    match word.strip_prefix("list:") {
        Some(text) => choices_of(alloc, text),
        None => Ok(None),
    }
}

// An order that a word names: `fifo`, `lifo`, or choices behind `list:`.
fn order_of<'a>(alloc: Global, word: &'a str) -> Result<Policy, WordsFault<'a>>
    ensures ok { IfOk result (λ p. IsPolicy word.entry.now p.order) }
    ensures err { IfErr result (PolicyFails (Some word.entry.now)) }
{
    match word {
        "fifo" => Ok(Policy {
            order: Order::Fifo,
            choices: Vec::new(alloc),
        }),
        "lifo" => Ok(Policy {
            order: Order::Lifo,
            choices: Vec::new(alloc),
        }),
        _ => match list_of(alloc, word)? {
            Some(choices) => Ok(Policy {
                order: Order::Listed,
                choices,
            }),
            None => Err(WordsFault::NoOrder(word)),
        },
    }
}

// The order of events that the matches ask for, in a subcommand that has one.
fn policy_of<'a>(alloc: Global, matches: &ArgMatches<'a>) -> Result<Policy, WordsFault<'a>>
    ensures ok { IfOk result (λ p. IsPolicyIn (first_value (found_of matches.now) (codes "policy")) p.order) }
    ensures err { IfErr result (PolicyFails (first_value (found_of matches.now) (codes "policy"))) }
{
    match matches.get_str("policy") {
        None => Ok(Policy {
            order: Order::Fifo,
            choices: Vec::new(alloc),
        }),
        Some(word) => order_of(alloc, word),
    }
}

// The top that the matches name, and nothing where they name none.
fn top_of<'a>(matches: &ArgMatches<'a>) -> &'a str
    ensures { result.now ≡ unwrap_or (first_value (found_of matches.now) (codes "top")) [] }
{
    matches.get_str("top").unwrap_or("")
}

// The rules that the matches ask for, in a subcommand that has them.
fn rules_of(matches: &ArgMatches) -> Rules
    requires { is_some (first_value (found_of matches.now) (codes "rules")) ≡ true }
    ensures { result ≡ rules_named (first_value (found_of matches.now) (codes "rules")) }
{
    match matches.get_str("rules").unwrap() {
        "wide" => Rules::Wide,
        _ => Rules::Narrow,
    }
}

// What the matches of `run` ask for.
fn request_of<'a>(matches: &ArgMatches<'a>, until: Ticks, order: Order) -> Request<'a>
    requires { AreGiven (first_value (found_of matches.now)) (one_text (found_of matches.now)) }
    ensures { Asks (first_value (found_of matches.now)) (one_text (found_of matches.now)) until.count order result }
{
    let text = match matches.get_str("out").unwrap() {
        "vcd" => OutputText::Dump,
        _ => OutputText::Lines,
    };
    Request {
        top: top_of(matches),
        until,
        steps: number_of(matches, "steps"),
        order,
        text,
        rules: rules_of(matches),
    }
}

// Whether the matches ask for a dump in a file, beside this text on standard output that is one too.
fn has_two_dumps(matches: &ArgMatches, text: OutputText) -> bool
    ensures { result ≡ (is_dump text && is_some (first_value (found_of matches.now) (codes "vcd"))) }
{
    match text {
        OutputText::Dump => matches.get_str("vcd").is_some(),
        OutputText::Lines => false,
    }
}

// Whether the matches ask for a run of a design whose certificate is accepted: by the flag, or since they name the certificate's file.
fn has_certificate(matches: &ArgMatches) -> bool
    requires { IsFlag (one_text (found_of matches.now) (codes "cert")) }
    ensures { result ≡ has_certificate (first_value (found_of matches.now)) (one_text (found_of matches.now)) }
{
    has_flag(matches, "cert") || matches.get_str("certificate").is_some()
}

// What the matches of `run` ask for, unless it is a certified run in another order than the first one, or has two dumps.
fn run_of<'a>(
    matches: &ArgMatches<'a>,
    until: Ticks,
    order: Order,
) -> Result<Subcommand<'a>, WordsFault<'a>>
    requires given { AreGiven (first_value (found_of matches.now)) (one_text (found_of matches.now)) }
    requires policy { IsPolicyIn (first_value (found_of matches.now) (codes "policy")) order }
    ensures ok { IfOk result (AsksAs run (first_value (found_of matches.now)) (one_text (found_of matches.now)) until.count order) }
    ensures err { IfErr result (λ fault. AskInVain fault run (first_value (found_of matches.now)) (one_text (found_of matches.now))) }
{
    let request = request_of(matches, until, order);
    if has_two_dumps(matches, request.text) {
        return Err(WordsFault::TwoDumps);
    }
    if !has_certificate(matches) {
        return Ok(Subcommand::Run(request));
    }
    match order {
        Order::Fifo => Ok(Subcommand::RunCertified(request)),
        _ => Err(WordsFault::OrderOfCertified),
    }
}

// What the matches of `race` ask for.
fn hunt_of<'a>(matches: &ArgMatches<'a>, until: Ticks) -> Hunt<'a>
    requires { AreGivenToRace (first_value (found_of matches.now)) (one_text (found_of matches.now)) }
    ensures { AsksRace (first_value (found_of matches.now)) (one_text (found_of matches.now)) until.count result }
{
    Hunt {
        top: top_of(matches),
        until,
        steps: number_of(matches, "steps"),
        tries: number_of(matches, "tries"),
        seed: number_of(matches, "seed"),
        from: number_of(matches, "from"),
        rules: rules_of(matches),
    }
}

// The grain that the matches of `certify` ask for.
fn grain_of(matches: &ArgMatches) -> ClaimedGrain
    requires { is_some (first_value (found_of matches.now) (codes "grain")) ≡ true }
    ensures { result ≡ grain_named (first_value (found_of matches.now) (codes "grain")) }
{
    match matches.get_str("grain").unwrap() {
        "statement" => ClaimedGrain::Statement,
        _ => ClaimedGrain::Block,
    }
}

// What the matches of a subcommand ask for, with this moment and this order.
fn subcommand_of<'a>(
    name: &str,
    matches: &ArgMatches<'a>,
    until: Ticks,
    order: Order,
) -> Result<Subcommand<'a>, WordsFault<'a>>
    requires given { AreGivenAs (name_of name.now) (first_value (found_of matches.now)) (one_text (found_of matches.now)) }
    requires policy { IsPolicyIn (first_value (found_of matches.now) (codes "policy")) order }
    ensures ok { IfOk result (
        AsksAs (name_of name.now) (first_value (found_of matches.now)) (one_text (found_of matches.now)) until.count order) }
    ensures err { IfErr result (λ fault.
        AskInVain fault (name_of name.now) (first_value (found_of matches.now)) (one_text (found_of matches.now))) }
{
    match name {
        "preprocess" => Ok(Subcommand::Preprocess),
        "elab" => Ok(Subcommand::Elab(top_of(matches))),
        "check" => Ok(Subcommand::Check(top_of(matches), rules_of(matches))),
        "certify" => Ok(Subcommand::Certify(top_of(matches), grain_of(matches), rules_of(matches))),
        "race" => Ok(Subcommand::Race(hunt_of(matches, until))),
        _ => run_of(matches, until, order),
    }
}

// The values of an option that may have several.
fn values_of<'a>(
    alloc: Global,
    matches: &ArgMatches<'a>,
    name: &str,
) -> Result<Vec<&'a str>, AllocError>
    ensures { IfOk result (λ list.
        map (λ v. v.now) list.items ≡ unwrap_or (option_map raw_values (matched_of (found_of matches.now) name.now)) []) }
{
    match matches.get_strs(name) {
        Some(values) => Vec::from_slice(alloc, values),
        None => Ok(Vec::new(alloc)),
    }
}

// The files that the matches of a subcommand name.
fn sources_of<'a>(alloc: Global, matches: &ArgMatches<'a>) -> Result<Sources<'a>, AllocError>
    ensures { IfOk result (λ s. NamesFiles (λ option. option_map raw_values (matched_of (found_of matches.now) option)) s) }
{
    Ok(Sources {
        files: values_of(alloc, matches, "files")?,
        defines: values_of(alloc, matches, "define")?,
        folders: values_of(alloc, matches, "folder")?,
    })
}

// The two values of an option.
fn pair_of<'a>(matches: &ArgMatches<'a>, name: &str) -> Option<(&'a str, &'a str)> {
    match matches.get_strs(name)? {
        [first, other] => Some((*first, *other)),
        _ => None,
    }
}

// The files that a call writes.
fn outputs_of<'a>(matches: &ArgMatches<'a>) -> Outputs<'a>
    ensures { NamesOutputs (first_value (found_of matches.now)) result }
{
    Outputs {
        text: matches.get_str("output"),
        dump: matches.get_str("vcd"),
        pair: pair_of(matches, "vcd-pair"),
    }
}

// Whether a subcommand has a top.
fn has_top(name: &str) -> bool
    ensures { result ≡ has_top (name_of name.now) }
{
    match name {
        "preprocess" => false,
        _ => true,
    }
}

// Whether a subcommand has a moment.
fn has_moment(name: &str) -> bool
    ensures { result ≡ has_moment (name_of name.now) }
{
    match name {
        "preprocess" => false,
        "elab" => false,
        "check" => false,
        "certify" => false,
        _ => true,
    }
}

// Whether the top is left out of the matches of a subcommand that has one.
fn lacks_top(name: &str, matches: &ArgMatches) -> bool
    ensures { result ≡ lacks_top (name_of name.now) (first_value (found_of matches.now)) }
{
    has_top(name) && matches.get_str("top").is_none()
}

// Whether the moment is there, in ticks, in the matches of a subcommand that has one.
fn has_ticks(name: &str, matches: &ArgMatches, unit: Option<TimeUnit>) -> bool
    ensures { result ≡ has_ticks (name_of name.now) (first_value (found_of matches.now)) unit }
{
    unit.is_none() && (matches.get_str("until").is_some() || !has_moment(name))
}

// Whether files are wanted, since the top or the moment in ticks isn't there.
fn wants_files(lacks_top: bool, has_ticks: bool) -> bool
    ensures { result ≡ (lacks_top || not has_ticks) }
{
    lacks_top || !has_ticks
}

// What the matches of a subcommand ask for. Without files the top and the moment can't be left out.
fn call_of<'a>(
    alloc: Global,
    name: &str,
    matches: &ArgMatches<'a>,
) -> Result<Call<'a>, WordsFault<'a>>
    requires { AreAllGiven (name_of name.now) (first_value (found_of matches.now)) (one_text (found_of matches.now)) }
    ensures ok { IfOk result (AsksFor (name_of name.now) (first_value (found_of matches.now)) (one_text (found_of matches.now))
        (λ option. option_map raw_values (matched_of (found_of matches.now) option))) }
    ensures err { IfErr result (λ fault.
        CallFails fault (name_of name.now) (first_value (found_of matches.now)) (one_text (found_of matches.now))
        (λ option. option_map raw_values (matched_of (found_of matches.now) option))) }
{
    let moment = until_of(matches)?;
    let Policy { order, choices } = policy_of(alloc, matches)?;
    let sources = sources_of(alloc, matches)?;
    let finds_top = lacks_top(name, matches);
    let is_wanting = wants_files(finds_top, has_ticks(name, matches, moment.unit));
    if sources.files.is_empty() && is_wanting {
        return Err(WordsFault::Unread);
    }
    match subcommand_of(name, matches, moment.count, order) {
        Ok(subcommand) => Ok(Call {
            subcommand,
            finds_top,
            unit: moment.unit,
            choices,
            sources,
            certificate: matches.get_str("certificate"),
            outputs: outputs_of(matches),
            explains: has_flag(matches, "explain"),
            short: has_flag(matches, "short"),
            seeks_race: matches.get_flag("race"),
        }),
        Err(fault) => Err(fault),
    }
}

// How many words behind a word are values of it, as an option.
fn option_values(word: &str) -> usize
    ensures { result ≡ option_values word.now }
{
    match word {
        "--vcd-pair" => 2,
        "-o" => 1,
        "-D" => 1,
        "-I" => 1,
        "--top" => 1,
        "--until" => 1,
        "--steps" => 1,
        "--policy" => 1,
        "--out" => 1,
        "--vcd" => 1,
        "--certificate" => 1,
        "--grain" => 1,
        "--tries" => 1,
        "--seed" => 1,
        "--from" => 1,
        "--rules" => 1,
        _ => 0,
    }
}

// Whether a word that is no option's value is a file's name: `-` is one, and what doesn't begin so.
fn is_file(word: &str) -> bool
    ensures { result ≡ is_file word.now }
{
    match word.as_bytes() {
        [first, _, ..] => *first != b'-',
        _ => true,
    }
}

// Whether a word names a file, where so many words name none.
fn is_named(due: usize, word: &str) -> bool
    ensures { result ≡ is_named due word.now }
{
    if due > 0 { false } else { is_file(word) }
}

// How many words behind a word name no file, where so many name none with it.
fn due_after(due: usize, word: &str) -> usize
    ensures { result ≡ due_after due word.now }
{
    if due > 0 {
        due - 1
    } else {
        option_values(word)
    }
}

// Whether the words of a call name a file, though they have a fault. The program's name and the subcommand name none.
fn names_file(words: &[&str]) -> bool
    ensures { result ≡ names_file 2 (map (λ w. w.now) words.now) }
{
    let mut due = 2;
    for word in words {
        if is_named(due, word) {
            return true;
        }
        due = due_after(due, word);
    }
    false
}

// What the words that ask for nothing are refused for: what `clap` says of them by the strict table.
fn refused<'a>(alloc: Global, words: &'a [&'a str]) -> Result<Call<'a>, WordsFault<'a>>
    requires { LooseFails (map (λ w. w.now) words.now) }
    ensures { IsErrAnd result (λ fault. WordsFail (map (λ w. w.now) words.entry.now) fault) }
{
    let _matches = vsim_command(alloc, true)?.try_get_matches_from(words)?;
    Err(WordsFault::Unread)
}

// What the words ask for by the table in which the top and the moment may be left out.
fn read_loose<'a>(alloc: Global, words: &'a [&'a str]) -> Result<Call<'a>, WordsFault<'a>>
    ensures ok { IfOk result (λ call. WordsAsk (map (λ w. w.now) words.entry.now) call) }
    ensures err { IfErr result (λ fault. IsInVain (map (λ w. w.now) words.entry.now) fault) }
{
    let matches = vsim_command(alloc, false)?.try_get_matches_from(words)?;
    let (name, matches) = matches.subcommand().unwrap();
    match call_of(alloc, name, matches) {
        Ok(call) => Ok(call),
        Err(fault) => Err(fault),
    }
}

// What words that name files are refused for: what that table says of them.
fn refused_files<'a>(
    alloc: Global,
    words: &'a [&'a str],
    fault: WordsFault<'a>,
) -> Result<Call<'a>, WordsFault<'a>>
    requires names { names_file 2 (map (λ w. w.now) words.now) ≡ true }
    requires vain { IsInVain (map (λ w. w.now) words.now) fault }
    ensures { IsErrAnd result (λ f. WordsFail (map (λ w. w.now) words.entry.now) f) }
{
    match fault {
        WordsFault::Refused(error) => match error.kind() {
            ErrorKind::OutOfMemory => Err(WordsFault::Refused(error)),
            ErrorKind::DisplayHelp => refused(alloc, words),
            ErrorKind::DisplayVersion => refused(alloc, words),
            _ => Err(WordsFault::Misused(error)),
        },
        WordsFault::Unread => refused(alloc, words),
        other => Err(other),
    }
}

// What words that name none are refused for.
#[tactic(auto, using(crate::proofs::VainLemmas::no_until, crate::proofs::VainLemmas::no_order))]
fn refused_input<'a>(
    alloc: Global,
    words: &'a [&'a str],
    fault: WordsFault<'a>,
) -> Result<Call<'a>, WordsFault<'a>>
    requires { IsInVain (map (λ w. w.now) words.now) fault }
    ensures { IsErrAnd result (λ f. WordsFail (map (λ w. w.now) words.entry.now) f) }
{
    match fault {
        WordsFault::Refused(error) => match error.kind() {
            ErrorKind::OutOfMemory => Err(WordsFault::Refused(error)),
            _ => refused(alloc, words),
        },
        WordsFault::NoUntil(_) => refused(alloc, words),
        WordsFault::NoOrder(_) => refused(alloc, words),
        WordsFault::Unread => refused(alloc, words),
        other => Err(other),
    }
}

/// What the words ask for, which is always something where they have no fault; they begin with the program's own name. A fault of the words, and a
/// call for help, is mostly `clap`'s error, whose text is to be printed. Without files the top and the moment can't be left out.
pub fn read_words<'a>(alloc: Global, words: &'a [&'a str]) -> Result<Call<'a>, WordsFault<'a>>
    ensures ok { IfOk result (λ call. WordsAsk (map (λ w. w.now) words.entry.now) call) }
    ensures err { IfErr result (λ fault. WordsFail (map (λ w. w.now) words.entry.now) fault) }
{
    match read_loose(alloc, words) {
        Ok(call) => Ok(call),
        Err(fault) if names_file(words) => refused_files(alloc, words, fault),
        Err(fault) => refused_input(alloc, words, fault),
    }
}
