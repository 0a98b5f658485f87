//! The words of the command line.

ghost use Rattle.std.specs.Prelude.{◌<◌, ◌≤◌, ◌^◌, IfOk, IfSome};
ghost use Rattle.pb_cli.specs.Asking.{IsWithinLimits};
ghost use Rattle.pb_cli.specs.Bounding.{IsBaud};
ghost use Rattle.pb_cli.specs.Playing.{IsUpTo};

use crate::bounding::{LEAST_BAUD, MOST_BAUD, USUAL_BAUD};
use crate::playing::{MOST_LINES, MOST_WORKERS};
use crate::words::{Ask, AskFault, Asked};
use clap::builder::ValueParser;
use clap::error::ErrorKind;
use clap::{Arg, ArgAction, ArgMatches, Command, Error, value_parser};
use pb_export::{
    CaptureExport, CaptureForm, Export, Form as Output, LATEST, Link, Strings, Window,
};
use pb_monitor::{Classes, Form, Options, SummaryForm};
use std::alloc::{AllocError, Global};

const RUN: &str = "run";

const AUDIT: &str = "audit";

const BOUNDS: &str = "bounds";

const MONITOR: &str = "monitor";

const CAPTURE: &str = "capture";

const FILE: &str = "FILE";

const FORM: &str = "form";

const ALARMS: &str = "alarms";

const EVERY: &str = "every";

const SUMMARY: &str = "summary";

const SLACK: &str = "slack";

const TAP: &str = "tap";

/// The forms of a capture.
const FORMS: [&str; 3] = ["lines", "raw", "pcap"];

/// The forms of a summary.
const SUMMARIES: [&str; 3] = ["text", "json", "csv"];

/// The classes of alarms.
const CLASSES: [&str; 5] = ["legality", "loss", "timing", "all", "none"];

/// The most bit times between two summaries.
const MOST_EVERY: u64 = 1 << 62;

/// The most bit times by which the difference of two moments may be wrong.
const MOST_SLACK: u32 = 1_000_000;

const WORKERS: &str = "workers";

const LAST: &str = "last";

const QUIET: &str = "quiet";

/// What a usage ends with.
const MORE: &str = "\n\nFor more information, try '--help'.\n";

/// The version of the program.
pub const VERSION: &str = "0.1.0";

const BAUD: &str = "baud";

const JSON: &str = "json";

const EXPORT: &str = "export";

const STREAM: &str = "stream";

const TO: &str = "to";

const FROM: &str = "from";

const UNTIL: &str = "until";

const LINK: &str = "link";

const NO_TEXT: &str = "no-text";

const PROGRESS: &str = "progress";

/// The forms of an export.
static OUTPUTS: [&str; 5] = ["svg", "pcapng", "pcap", "vcd", "json"];

/// The forms of an export of a capture.
static CAPTURE_OUTPUTS: [&str; 4] = ["svg", "pcapng", "pcap", "json"];

/// The link types of a capture file.
static LINKS: [&str; 2] = ["147", "257"];

/// Reads the program's words, its name first.
///
/// The numbers of workers and of last lines are within their limits.
///
/// Faults: `Usage`, with the text to show, if the words make no sense or ask for help; `NoMemory`.
pub fn ask(alloc: Global, words: &[String]) -> Result<Ask, AskFault>
    ensures { IfOk result IsWithinLimits }
{
    Ok(ask_with_options(alloc, words)?.ask)
}

/// Reads the program's words as [`ask`] does, and whether they suppress hints.
///
/// Faults: those of `ask`.
pub fn ask_with_options(alloc: Global, words: &[String]) -> Result<Asked, AskFault>
    ensures { IfOk result (λ asked. IsWithinLimits asked.ask) }
{
    match command(alloc)?.try_get_matches_from(words) {
        Ok(matches) => Ok(Asked {
            ask: asked(alloc, &matches)?,
            is_quiet: is_quiet(&matches),
        }),
        Err(error) if error.kind() == ErrorKind::DisplayVersion => Ok(Asked {
            ask: Ask::Version,
            is_quiet: false,
        }),
        Err(error) => Err(usage(alloc, &error)?),
    }
}

/// The request that valid words make.
///
/// Faults: `Usage` for a window that begins after its end; `NoMemory`.
fn asked(alloc: Global, matches: &ArgMatches<'_>) -> Result<Ask, AskFault>
    ensures { IfOk result IsWithinLimits }
{
    match matches.subcommand() {
        Some((RUN, run)) => Ok(Ask::Run {
            file: file_in(alloc, run)?,
            workers: number_in(run, WORKERS, MOST_WORKERS),
            last: number_in(run, LAST, MOST_LINES),
        }),
        Some((AUDIT, audit)) => Ok(Ask::Audit {
            file: file_in(alloc, audit)?,
        }),
        Some((BOUNDS, bounds)) => Ok(Ask::Bounds {
            file: file_in(alloc, bounds)?,
            baud: baud_in(bounds),
            json: bounds.get_flag(JSON),
        }),
        Some((MONITOR, monitor)) => asked_monitor(alloc, monitor),
        Some((CAPTURE, capture)) => Ok(Ask::Capture {
            file: file_in(alloc, capture)?,
            tap: text_in(alloc, capture, TAP)?,
        }),
        Some((EXPORT, export)) => asked_export(alloc, export),
        Some((STREAM, stream)) => Ok(Ask::Stream {
            file: file_in(alloc, stream)?,
            until: until_in(stream),
            progress: stream.get_flag(PROGRESS),
            audit: stream.get_flag(AUDIT),
        }),
        _ => Ok(Ask::Decode),
    }
}

/// The monitor that valid words ask for. An export is of a bus with the usual baud rate, if no other is given, so packets
/// have moments.
///
/// Faults: those of `asked`.
fn asked_monitor(alloc: Global, matches: &ArgMatches<'_>) -> Result<Ask, AskFault>
    ensures { IfOk result IsWithinLimits }
{
    let export = capture_export_in(matches);
    let mut options = options_in(matches);
    if let Some(export) = &export {
        options.baud = Some(export.baud);
    }
    Ok(Ask::Monitor {
        file: text_in(alloc, matches, FILE)?,
        options,
        export,
    })
}

/// The form in which a capture is to be written, if one is given.
fn capture_export_in(matches: &ArgMatches<'_>) -> Option<CaptureExport>
    ensures { IfSome result (λ export. IsBaud export.baud) }
{
    let form = match matches.get_str(TO) {
        Some("pcapng") => CaptureForm::Pcapng,
        Some("pcap") => CaptureForm::Pcap,
        Some("json") => CaptureForm::Json,
        Some("svg") => CaptureForm::Svg,
        _ => return None,
    };
    Some(CaptureExport {
        form,
        baud: baud_in(matches),
        link: link_of(matches.get_str(LINK).unwrap_or("")),
    })
}

/// The export that valid words ask for.
///
/// Faults: those of `asked`.
fn asked_export(alloc: Global, matches: &ArgMatches<'_>) -> Result<Ask, AskFault>
    ensures { IfOk result IsWithinLimits }
{
    let window = Window {
        from: moment_in(matches, FROM, 0),
        until: moment_in(matches, UNTIL, LATEST),
    };
    if window.until < window.from {
        let Window { from, until, .. } = window;
        let text = format!(in alloc; "error: --from {from} is past --until {until}{MORE}")?;
        return Err(AskFault::Usage(text));
    }
    Ok(Ask::Export {
        file: file_in(alloc, matches)?,
        export: Export {
            form: form_of(matches.get_str(TO).unwrap_or("")),
            window,
            baud: baud_in(matches),
            link: link_of(matches.get_str(LINK).unwrap_or("")),
            strings: strings_in(matches),
        },
    })
}

/// The form of a word. The option's parser has checked that it is one.
fn form_of(word: &str) -> Output {
    match word {
        "pcapng" => Output::Pcapng,
        "pcap" => Output::Pcap,
        "vcd" => Output::Vcd,
        "json" => Output::Json,
        _ => Output::Svg,
    }
}

/// The link type of a word, or the usual one.
fn link_of(word: &str) -> Link {
    match word {
        "257" => Link::Profibus,
        _ => Link::User,
    }
}

/// Whether a value change dump has strings.
fn strings_in(matches: &ArgMatches<'_>) -> Strings {
    if matches.get_flag(NO_TEXT) {
        Strings::LeftOut
    } else {
        Strings::Shown
    }
}

/// The moment of an option in bit times, or the usual one. The option's parser has checked its range.
fn moment_in(matches: &ArgMatches<'_>, option: &str, usual: u64) -> u64
    requires { usual ≤ 1000000000000 }
    ensures { result ≤ 1000000000000 }
{
    match matches.get_one::<u64>(option) {
        Some(moment) if moment <= LATEST => moment,
        _ => usual,
    }
}

/// The moment until which time passes in a stream, if it is given. The option's parser has checked its range.
fn until_in(matches: &ArgMatches<'_>) -> Option<u64>
    ensures { IfSome result (λ until. until ≤ 1000000000000) }
{
    match matches.get_one::<u64>(UNTIL) {
        Some(until) if until <= LATEST => Some(until),
        _ => None,
    }
}

/// Whether the words suppress hints.
fn is_quiet(matches: &ArgMatches<'_>) -> bool {
    match matches.subcommand() {
        Some((RUN | AUDIT | BOUNDS | MONITOR | CAPTURE | EXPORT | STREAM, words)) => words.get_flag(
            QUIET,
        ),
        _ => false,
    }
}

/// The path of the file.
fn file_in(alloc: Global, matches: &ArgMatches<'_>) -> Result<String, AllocError> {
    String::from_str(alloc, matches.get_str(FILE).unwrap_or(""))
}

/// The text of an argument, if it is given.
fn text_in(
    alloc: Global,
    matches: &ArgMatches<'_>,
    name: &str,
) -> Result<Option<String>, AllocError> {
    match matches.get_str(name) {
        Some(text) => Ok(Some(String::from_str(alloc, text)?)),
        None => Ok(None),
    }
}

/// What a monitor is asked for.
fn options_in(matches: &ArgMatches<'_>) -> Options {
    Options {
        form: match matches.get_str(FORM) {
            Some("raw") => Form::Raw,
            Some("pcap") => Form::Pcap,
            _ => Form::Lines,
        },
        classes: match matches.get_str(ALARMS) {
            Some(words) => classes_in(words),
            None => Classes::all(),
        },
        every: matches.get_one::<u64>(EVERY),
        summary: match matches.get_str(SUMMARY) {
            Some("text") => Some(SummaryForm::Text),
            Some("json") => Some(SummaryForm::Json),
            Some("csv") => Some(SummaryForm::Csv),
            _ => None,
        },
        baud: matches.get_one::<u32>(BAUD),
        slack: matches.get_one::<u32>(SLACK).unwrap_or(0),
    }
}

/// The class of alarms that a word names, or all or none.
fn classes_in(word: &str) -> Classes {
    let none = Classes::none();
    match word {
        "legality" => Classes {
            legality: true,
            loss: none.loss,
            timing: none.timing,
        },
        "loss" => Classes {
            legality: none.legality,
            loss: true,
            timing: none.timing,
        },
        "timing" => Classes {
            legality: none.legality,
            loss: none.loss,
            timing: true,
        },
        "none" => none,
        _ => Classes::all(),
    }
}

/// The number of an option, if it is given. The option's parser has checked its range.
fn number_in(matches: &ArgMatches<'_>, option: &str, most: usize) -> Option<usize>
    ensures { IsUpTo most result }
{
    match matches.get_one::<usize>(option) {
        Some(number) if number >= 1 && number <= most => Some(number),
        _ => None,
    }
}

/// How many bits a second a bus has, or the usual number.
fn baud_in(matches: &ArgMatches<'_>) -> u32
    ensures { IsBaud result }
{
    match matches.get_one::<u32>(BAUD) {
        Some(baud) if baud >= LEAST_BAUD && baud <= MOST_BAUD => baud,
        _ => USUAL_BAUD,
    }
}

/// The commands and options of the program.
fn command<'a>(alloc: Global) -> Result<Command<'a>, AllocError> {
    Command::new(alloc, "ringplay")
        .about("A PROFIBUS data link layer (FDL): telegrams and the token ring")
        .version(VERSION)
        .after_help("Example: ringplay run examples/two-masters.toml --last 5")
        .subcommand_required(true)
        .subcommand(decode_command(alloc))?
        .subcommand(run_command(alloc)?)?
        .subcommand(audit_command(alloc)?)?
        .subcommand(bounds_command(alloc)?)?
        .subcommand(monitor_command(alloc)?)?
        .subcommand(capture_command(alloc)?)?
        .subcommand(export_command(alloc)?)?
        .subcommand(stream_command(alloc)?)
}

fn decode_command<'a>(alloc: Global) -> Command<'a> {
    Command::new(alloc, "decode")
        .about("Turns hex on standard input, a telegram a line, into text")
        .after_help("Example: echo dc0302 | ringplay decode")
}

fn run_command<'a>(alloc: Global) -> Result<Command<'a>, AllocError> {
    Command::new(alloc, RUN)
        .about("Plays a scenario and prints its trace")
        .after_help("Example: ringplay run examples/two-masters.toml --last 5")
        .arg(file(alloc))?
        .arg(number(alloc, WORKERS, MOST_WORKERS).help(
            "Threads that may share the turns, 1 to 64; one takes them all unless it is held up [default: one for each tap, 64 at most]",
        ))?
        .arg(number(alloc, LAST, MOST_LINES).help("Prints the last lines alone, 1 to 10000"))?
        .arg(quiet(alloc))
}

fn audit_command<'a>(alloc: Global) -> Result<Command<'a>, AllocError> {
    Command::new(alloc, AUDIT)
        .about(
            "Says which premise broke in a scenario's run, and which record of its trace is illegal",
        )
        .after_help("Example: ringplay audit examples/two-masters.toml")
        .arg(file(alloc))?
        .arg(quiet(alloc))
}

fn bounds_command<'a>(alloc: Global) -> Result<Command<'a>, AllocError> {
    Command::new(alloc, BOUNDS)
        .about("Says what is proved of a scenario's bus, in numbers, and warns of its parameters")
        .after_help("Example: ringplay bounds examples/two-masters.toml --baud 500000")
        .arg(file(alloc))?
        .arg(baud(alloc))?
        .arg(
            Arg::new(alloc, JSON)
                .long(JSON)
                .action(ArgAction::SetTrue)
                .help("Prints one JSON object"),
        )?
        .arg(quiet(alloc))
}

fn monitor_command<'a>(alloc: Global) -> Result<Command<'a>, AllocError> {
    Command::new(alloc, MONITOR)
        .about(
            "Reads a capture on standard input as it comes: words, who holds the token, alarms, statistics",
        )
        .after_help(
            "Example: ringplay capture examples/two-masters.toml | ringplay monitor examples/two-masters.toml",
        )
        .arg(Arg::new(alloc, FILE).help(
            "A file with the parameters of the bus, as a scenario has; without it nothing is judged",
        ))?
        .arg(choice(alloc, FORM, "FORM", &FORMS).help(
            "lines: BEGIN END HEX, BEGIN HEX or HEX; raw: octets; pcap: a file of packets [default: lines]",
        ))?
        .arg(choice(alloc, ALARMS, "CLASS", &CLASSES).help(
            "Which alarms are raised [default: all]",
        ))?
        .arg(limited(alloc, EVERY, "BITS", 1, MOST_EVERY).help(
            "Prints a summary each time that so many bit times have passed",
        ))?
        .arg(choice(alloc, SUMMARY, "FORMAT", &SUMMARIES).help(
            "Prints the summary alone, as text, one JSON object or a table of the stations",
        ))?
        .arg(
            choice(alloc, TO, "FORM", CAPTURE_OUTPUTS.as_slice())
                .conflicts_with(SUMMARY)?
                .conflicts_with(EVERY)?
                .help("Writes the capture in this form, in place of lines and a summary"),
        )?
        .arg(baud(alloc).help(
            "Bits a second, 9600 to 12000000, for the moments of packets [default with --to: 1500000]",
        ))?
        .arg(
            choice(alloc, LINK, "N", LINKS.as_slice())
                .requires_arg(TO)?
                .help(
                    "The link type of pcap and pcapng: 147 for a dissector of one's own, 257 for PROFIBUS [default: 147]",
                ),
        )?
        .arg(slack(alloc))?
        .arg(quiet(alloc))
}

fn capture_command<'a>(alloc: Global) -> Result<Command<'a>, AllocError> {
    Command::new(alloc, CAPTURE)
        .about("Prints what a listener hears of a scenario's run, as lines for monitor")
        .after_help(
            "Example: ringplay capture examples/two-masters.toml | ringplay monitor examples/two-masters.toml",
        )
        .arg(file(alloc))?
        .arg(
            Arg::new(alloc, TAP).long(TAP).value_name("NAME").help(
                "The tap that listens, while it runs [default: all telegrams, as they are sent]",
            ),
        )?
        .arg(quiet(alloc))
}

fn export_command<'a>(alloc: Global) -> Result<Command<'a>, AllocError> {
    Command::new(alloc, EXPORT)
        .about(
            "Plays a scenario and writes its trace for Wireshark, GTKWave, PulseView, people or programs",
        )
        .after_help("Example: ringplay export examples/two-masters.toml --to svg >two-masters.svg")
        .arg(file(alloc))?
        .arg(
            choice(alloc, TO, "FORM", OUTPUTS.as_slice())
                .required(true)
                .help("The form of the output"),
        )?
        .arg(moment(alloc, FROM).help("Leaves out what begins before this bit time"))?
        .arg(moment(alloc, UNTIL).help("Leaves out what begins after this bit time"))?
        .arg(baud(alloc).help(
            "Bits a second, 9600 to 12000000, for the times of pcap, pcapng and vcd [default: 1500000]",
        ))?
        .arg(choice(alloc, LINK, "N", LINKS.as_slice()).help(
            "The link type of pcap and pcapng: 147 for a dissector of one's own, 257 for PROFIBUS [default: 147]",
        ))?
        .arg(
            Arg::new(alloc, NO_TEXT)
                .long(NO_TEXT)
                .action(ArgAction::SetTrue)
                .help("Leaves out the string of vcd, which not every tool reads"),
        )?
        .arg(quiet(alloc))
}

fn stream_command<'a>(alloc: Global) -> Result<Command<'a>, AllocError> {
    Command::new(alloc, STREAM)
        .about("Plays a scenario and prints its trace as it settles, for runs of any length")
        .after_help("Example: ringplay stream examples/two-masters.toml --until 100000000")
        .arg(file(alloc))?
        .arg(limited(alloc, UNTIL, "N", 1, LATEST).help(
            "Ends at this bit time, 1 to 1000000000000, in place of the file's `until`",
        ))?
        .arg(
            Arg::new(alloc, AUDIT)
                .long(AUDIT)
                .action(ArgAction::SetTrue)
                .help("Prints the audit of the run in place of its trace, as it is found"),
        )?
        .arg(
            Arg::new(alloc, PROGRESS)
                .long(PROGRESS)
                .action(ArgAction::SetTrue)
                .help(
                    "Shows on standard error how far the run is [default: if that is a terminal and standard output is none]",
                ),
        )?
        .arg(quiet(alloc))
}

/// An option whose value is one of some words.
fn choice<'a>(alloc: Global, name: &'a str, value: &'a str, words: &'a [&'a str]) -> Arg<'a> {
    Arg::new(alloc, name)
        .long(name)
        .value_name(value)
        .value_parser(words)
}

/// An option whose value is a number from `least` to `most`.
fn limited<'a>(alloc: Global, name: &'a str, value: &'a str, least: u64, most: u64) -> Arg<'a> {
    Arg::new(alloc, name)
        .long(name)
        .value_name(value)
        .value_parser(ValueParser::unsigned(least, most))
}

/// An option whose value is a moment, in bit times.
fn moment<'a>(alloc: Global, name: &'a str) -> Arg<'a> {
    Arg::new(alloc, name)
        .long(name)
        .value_name("T")
        .value_parser(value_parser!(u64).range(0..=LATEST as i64))
}

/// An option whose value is a number from 1 to `most`.
fn number<'a>(alloc: Global, name: &'a str, most: usize) -> Arg<'a>
    requires { most < 2 ^ 63 }
{
    Arg::new(alloc, name)
        .long(name)
        .value_name("N")
        .value_parser(value_parser!(usize).range(1..=most as i64))
}

/// The option of a baud rate.
fn baud<'a>(alloc: Global) -> Arg<'a> {
    Arg::new(alloc, BAUD)
        .long(BAUD)
        .value_name("N")
        .help("Bits a second, 9600 to 12000000, for the milliseconds [default: 1500000]")
        .value_parser(value_parser!(u32).range(i64::from(LEAST_BAUD)..=i64::from(MOST_BAUD)))
}

/// The option of a slack.
fn slack<'a>(alloc: Global) -> Arg<'a> {
    Arg::new(alloc, SLACK)
        .long(SLACK)
        .value_name("BITS")
        .help("By how many bit times the difference of two moments may be wrong [default: 0]")
        .value_parser(value_parser!(u32).range(0..=i64::from(MOST_SLACK)))
}

/// The argument that names a scenario file.
fn file<'a>(alloc: Global) -> Arg<'a> {
    Arg::new(alloc, FILE)
        .help("A scenario file; - for standard input")
        .required(true)
}

/// The option that suppresses hints.
fn quiet<'a>(alloc: Global) -> Arg<'a> {
    Arg::new(alloc, QUIET)
        .long(QUIET)
        .action(ArgAction::SetTrue)
        .help("Prints no hints and warnings on standard error")
}

/// The fault for words that `clap` rejects.
fn usage(alloc: Global, error: &Error) -> Result<AskFault, AllocError> {
    if error.kind() == ErrorKind::OutOfMemory {
        return Ok(AskFault::NoMemory);
    }
    Ok(AskFault::Usage(format!(in alloc; "{error}")?))
}
