//! What the words of a command line ask for.
ghost use Rattle.std.specs.Prelude.{◌≡◌, ◌∷◌, [], ℕ, List, Option, Some, true, false, IfOk, IfErr, IfSome};
ghost use Rattle.std.specs.Prelude.{IsSomeAnd, map, option_and_then, option_map, string_bytes};
ghost use Rattle.clap.specs.declared.builder.command.Command.TheViews.{out-Command};
ghost use Rattle.clap.specs.Words.{app_of, found_of, kind_of, rows_of, rule_of, subcommand_rows_of};
ghost use Rattle.cm_command.specs.CommandLine.{are_for, are_limits, cmk_app, each_once, examples_app};
ghost use Rattle.cm_command.specs.CommandLine.{file_at, file_named, file_rule, flag_rule, found_for};
ghost use Rattle.cm_command.specs.CommandLine.{hold_an_option, in_form, is_option, is_set, job_app};
ghost use Rattle.cm_command.specs.CommandLine.{job_of, json_name, limits_at, limits_by, number_rule};
ghost use Rattle.cm_command.specs.CommandLine.{limits_for_job, reads_a_text, rules_in, stops_of};
ghost use Rattle.cm_command.specs.CommandLine.{tree_app, with_flags, words_for};
ghost use Rattle.cm_command.specs.CommandLine.{Choice, IsMistake, IsTaskFor, IsTaskOf, StopsBy};
ghost use Rattle.cm_command.specs.CommandLine.{StopsFor};
ghost use Rattle.cm_command.specs.steps.Arguments.{IsJob, OptionsAreRead, AreRead, FlagsAreRead};

use crate::job::{Job, Stop, Task};
use crate::tips::with_tip;
use clap::builder::ValueParser;
use clap::error::ErrorKind;
use clap::{Arg, ArgAction, ArgMatches, Command, Error};
use cm_text::{Limits, Rules};
use std::alloc::{AllocError, Global};

/// The version of the program.
const VERSION: &str = "0.1.0";

/// What `--older` does.
const OLDER: &str = "Uses older rules: <source> starts an HTML block, <search> does not";

/// What `--strike` does.
const STRIKE: &str = "Strikes through text between two tildes";

/// What `--no-html` does.
const NO_HTML: &str = "Treats raw HTML as text";

/// What `--web-links` does.
const WEB_LINKS: &str = "Treats links with a scheme other than http, https or mailto as text";

/// What `--safe` does.
const SAFE: &str = "For untrusted text: --no-html and --web-links";

/// What `--json` does.
const JSON: &str = "Prints the tree as JSON (mdast)";

/// The argument FILE.
fn file_arg<'a>(alloc: Global, help: &'a str) -> Arg<'a>
    ensures rule { rule_of result ≡ file_rule }
    ensures local { result.global ≡ false }
{
    Arg::new(alloc, "file").value_name("FILE").help(help)
}

/// The option of this name, which takes a number from 1 on.
fn limit_arg<'a>(
    alloc: Global,
    name: &'a str,
    most: u64,
    standard: &'a str,
    help: &'a str,
) -> Arg<'a>
    ensures rule { rule_of result ≡ number_rule name.now most standard.now }
    ensures local { result.global ≡ false }
{
    Arg::new(alloc, name)
        .long(name)
        .value_name("N")
        .value_parser(ValueParser::unsigned(1, most))
        .default_value(standard)
        .help(help)
}

/// The flag of this name.
fn flag_arg<'a>(alloc: Global, name: &'a str, help: &'a str) -> Arg<'a>
    ensures rule { rule_of result ≡ flag_rule name.now }
    ensures local { result.global ≡ false }
{
    Arg::new(alloc, name)
        .long(name)
        .action(ArgAction::SetTrue)
        .help(help)
}

/// The subcommand, with each flag added.
fn with_flags<'a>(alloc: Global, command: Command<'a>) -> Result<Command<'a>, AllocError>
    ensures app { IfOk result (λ c. app_of c ≡ with_flags (app_of command.entry)) }
    ensures local { (out-Command command.entry).has_globals ≡ false
        → IfOk result (λ c. (out-Command c).has_globals ≡ false) }
{
    command
        .arg(flag_arg(alloc, "older", OLDER))?
        .arg(flag_arg(alloc, "strike", STRIKE))?
        .arg(flag_arg(alloc, "no-html", NO_HTML))?
        .arg(flag_arg(alloc, "web-links", WEB_LINKS))?
        .arg(flag_arg(alloc, "safe", SAFE))
}

/// The subcommand of this name, which reads a text.
fn job_command<'a>(alloc: Global, name: &'a str, about: &'a str) -> Result<Command<'a>, AllocError>
    ensures app { IfOk result (λ c. app_of c ≡ job_app name.now) }
    ensures local { IfOk result (λ c. (out-Command c).has_globals ≡ false) }
{
    let bytes = "The most bytes that the text may have, 1 to 1073741824";
    let blocks = "The most quotes and list items that may enclose a line, 1 to 500";
    let inlines = "How deeply emphasis, links and images may nest, 1 to 500";
    let file = "The file to read; standard input if it is - or omitted";
    let command = Command::new(alloc, name)
        .about(about)
        .arg(file_arg(alloc, file))?
        .arg(limit_arg(alloc, "bytes", 1 << 30, "268435456", bytes))?
        .arg(limit_arg(alloc, "blocks", 500, "100", blocks))?
        .arg(limit_arg(alloc, "inlines", 500, "100", inlines))?;
    with_flags(alloc, command)
}

/// The subcommand that writes the tree of a text.
fn tree_command<'a>(alloc: Global) -> Result<Command<'a>, AllocError>
    ensures app { IfOk result (λ c. app_of c ≡ tree_app) }
    ensures local { IfOk result (λ c. (out-Command c).has_globals ≡ false) }
{
    let about = "Lists the tree of a text and the owner of each line";
    job_command(alloc, "tree", about)?.arg(flag_arg(alloc, "json", JSON))
}

/// The subcommand that reads a file of examples.
fn examples_command<'a>(alloc: Global) -> Result<Command<'a>, AllocError>
    ensures app { IfOk result (λ c. app_of c ≡ examples_app) }
    ensures local { IfOk result (λ c. (out-Command c).has_globals ≡ false) }
{
    let about = "Runs a file of CommonMark examples and reports mismatches";
    let file =
        "The file of examples, in the form of the CommonMark specification; standard input if it is -";
    let command = Command::new(alloc, "examples")
        .about(about)
        .arg(file_arg(alloc, file).required(true))?;
    with_flags(alloc, command)
}

/// The command line of `cmk`.
fn command<'a>(alloc: Global) -> Result<Command<'a>, AllocError>
    ensures { IfOk result (λ c. app_of c ≡ cmk_app) }
{
    let render = "Renders a text as HTML";
    let rewrite = "Rewrites a text as CommonMark source with inline links";
    Command::new(alloc, "cmk")
        .about(
            "Converts CommonMark 0.31.2 to HTML, to a listing of its tree, or to CommonMark source",
        )
        .version(VERSION)
        .subcommand_required(true)
        .subcommand(job_command(alloc, "render", render)?)?
        .subcommand(tree_command(alloc)?)?
        .subcommand(job_command(alloc, "rewrite", rewrite)?)?
        .subcommand(examples_command(alloc)?)
}

/// The job of the subcommand of this name, without its options.
fn job_of(name: &str) -> Option<Job>
    ensures { result ≡ job_of name.now }
{
    match name {
        "render" => Some(Job::Render),
        "tree" => Some(Job::Tree),
        "rewrite" => Some(Job::Rewrite),
        "examples" => Some(Job::Examples),
        _ => None,
    }
}

/// Why there are no matches of the words. Lack of memory is tested first, because it has a text and a status
/// too.
fn stop_of(alloc: Global, error: &Error, words: &[String]) -> Stop
    ensures memory { kind_of error.now ≡ ErrorKind.OutOfMemory → result ≡ Stop.NoMemory }
    ensures kind { StopsBy (kind_of error.now) result }
{
    if error.kind() == ErrorKind::OutOfMemory {
        return Stop::NoMemory;
    }
    let Ok(text) = format!(in alloc; "{error}") else {
        return Stop::NoMemory;
    };
    if !error.use_stderr() {
        return Stop::Help(text);
    }
    match with_tip(alloc, &text, error.kind(), words) {
        Ok(text) => Stop::Wrong(text),
        Err(_) => Stop::NoMemory,
    }
}

/// The file that the words of a subcommand name; None for standard input.
fn file_of(alloc: Global, found: &ArgMatches<'_>) -> Result<Option<String>, AllocError>
    ensures { IfOk result (λ file. option_map string_bytes file ≡ file_at (rows_of (found_of found.now))) }
{
    match found.get_str("file") {
        Some("-") => Ok(None),
        Some(name) => Ok(Some(String::from_str(alloc, name)?)),
        None => Ok(None),
    }
}

/// The rules that the flags of a subcommand ask for.
fn rules_of(found: &ArgMatches<'_>) -> Rules
    requires { FlagsAreRead (rows_of (found_of found.now)) }
    ensures { result ≡ rules_in (rows_of (found_of found.now)) }
{
    let rules = if found.get_flag("older") {
        Rules::older()
    } else {
        Rules::profile()
    };
    let no_html = found.get_flag("no-html");
    let web_links = found.get_flag("web-links");
    let safe = found.get_flag("safe");
    rules
        .with_strike(found.get_flag("strike"))
        .with_raw_html(!(no_html || safe))
        .with_any_address(!(web_links || safe))
}

/// The limits that the options of a subcommand that reads a text ask for.
fn limits_of(found: &ArgMatches<'_>) -> Limits
    requires { AreRead (rows_of (found_of found.now)) }
    ensures { limits_at (rows_of (found_of found.now)) ≡ Some result }
{
    let bytes = found.get_one::<usize>("bytes").unwrap();
    let blocks = found.get_one::<usize>("blocks").unwrap();
    let inlines = found.get_one::<usize>("inlines").unwrap();
    let limits = Limits::new(bytes, blocks, inlines).unwrap();
    limits.with_rules(rules_of(found))
}

/// The job of a subcommand, from its matches.
fn in_form(job: Job, found: &ArgMatches<'_>) -> Job
    requires { OptionsAreRead job (rows_of (found_of found.now)) }
    ensures { result ≡ in_form job (is_set json_name (rows_of (found_of found.now))) }
{
    match job {
        Job::Tree => {
            if found.get_flag("json") {
                Job::TreeJson
            } else {
                Job::Tree
            }
        }
        _ => job,
    }
}

/// The limits of a job, from the matches of its subcommand.
fn limits_for_job(job: Job, found: &ArgMatches<'_>) -> Limits
    requires { OptionsAreRead job (rows_of (found_of found.now)) }
    ensures { limits_for_job job (rows_of (found_of found.now)) ≡ Some result }
{
    match job {
        Job::Render | Job::Tree | Job::TreeJson | Job::Rewrite => limits_of(found),
        Job::Examples => Limits::standard().with_rules(rules_of(found)),
    }
}

/// The task of these matches.
fn task_of(alloc: Global, matches: &ArgMatches<'_>) -> Result<Task, AllocError>
    requires { IsSomeAnd (subcommand_rows_of matches.now) IsJob }
    ensures { IfOk result (λ task. IsTaskOf (subcommand_rows_of matches.now) task) }
{
    let (name, found) = matches.subcommand().unwrap();
    let job = job_of(name).unwrap();
    Ok(Task {
        job: in_form(job, found),
        file: file_of(alloc, found)?,
        limits: limits_for_job(job, found),
    })
}

/// The task that the words of a command line ask for. The first word is the program's name.
///
/// `Stop` for a request for help or for the version, with `clap`'s text, and for words that are no command
/// line of the program. A request for memory may be refused in any call.
pub fn task(alloc: Global, words: &[String]) -> Result<Task, Stop>
    // A job on a text by its name, with each option at most once, in any order, and a file or none.
    // `--json` is given for the tree as JSON alone. Neither a number nor the file is a hyphen followed by
    // more; a file `-` is standard input.
    ensures asked { (name : List ℕ) (job : Job) (choices : List Choice) (file : Option (List ℕ))
        → reads_a_text job ≡ true → are_for job choices ≡ true
        → map string_bytes words.now ≡ name ∷ words_for job choices file
        → each_once choices ≡ true → are_limits choices ≡ true
        → IfSome file (λ f. is_option f ≡ false)
        → IsTaskFor job (option_and_then file_named file) (limits_by choices) result }
    ensures out_of_range { (name : List ℕ) (job : Job) (choices : List Choice) (file : Option (List ℕ))
        → reads_a_text job ≡ true → are_for job choices ≡ true
        → map string_bytes words.now ≡ name ∷ words_for job choices file
        → each_once choices ≡ true → are_limits choices ≡ false → hold_an_option choices ≡ false
        → IfSome file (λ f. is_option f ≡ false) → IsMistake result }

    // All words, as `clap` reads them.
    ensures found { IfOk result (IsTaskOf (found_for (map string_bytes words.now))) }
    ensures right { IfOk result (λ _. stops_of (map string_bytes words.now) ≡ []) }
    ensures stops { IfErr result (StopsFor (stops_of (map string_bytes words.now))) }
{
    match command(alloc)?.try_get_matches_from(words) {
        Ok(matches) => Ok(task_of(alloc, &matches)?),
        Err(error) => Err(stop_of(alloc, &error, words)),
    }
}
