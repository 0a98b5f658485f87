//! The program's words: what they ask for, and the usage for all others.

use super::equal;
use pb_cli::{Ask, AskFault, ask};
use pb_export::{Export, Form, Link, Strings, Window};
use std::alloc::{AllocError, Global};
use std::test::Fail;

/// The program's words, its name first.
fn words(alloc: Global, line: &str) -> Result<Vec<String>, AllocError> {
    line.split_whitespace()
        .map(|word| String::from_str(alloc, word))
        .try_collect(alloc)
}

#[test]
fn decode_is_understood(rt: HostRuntime) -> Result<(), Fail> {
    let words = words(rt.alloc(), "ringplay decode")?;
    equal(&rt, &ask(rt.alloc(), &words)?, &Ask::Decode);
    Ok(())
}

#[test]
fn audit_takes_a_file(rt: HostRuntime) -> Result<(), Fail> {
    let words = words(rt.alloc(), "ringplay audit rings/two.toml")?;
    let file = String::from_str(rt.alloc(), "rings/two.toml")?;
    equal(&rt, &ask(rt.alloc(), &words)?, &Ask::Audit { file });
    Ok(())
}

#[test]
fn run_takes_a_file_and_numbers(rt: HostRuntime) -> Result<(), Fail> {
    for (line, workers, last) in [
        ("ringplay run two.toml", None, None),
        (
            "ringplay run two.toml --workers 64 --last=3",
            Some(64),
            Some(3),
        ),
        (
            "ringplay run --last 10000 --workers 01 two.toml",
            Some(1),
            Some(10_000),
        ),
    ] {
        let words = words(rt.alloc(), line)?;
        let file = String::from_str(rt.alloc(), "two.toml")?;
        let wanted = Ask::Run {
            file,
            workers,
            last,
        };
        equal(&rt, &ask(rt.alloc(), &words)?, &wanted);
    }
    Ok(())
}

#[test]
fn export_takes_a_form_and_a_window(rt: HostRuntime) -> Result<(), Fail> {
    let line =
        "ringplay export --to pcapng two.toml --from 5 --until=9 --baud 9600 --link 257 --no-text";
    let words = words(rt.alloc(), line)?;
    let file = String::from_str(rt.alloc(), "two.toml")?;
    let export = Export {
        form: Form::Pcapng,
        window: Window { from: 5, until: 9 },
        baud: 9600,
        link: Link::Profibus,
        strings: Strings::LeftOut,
    };
    equal(
        &rt,
        &ask(rt.alloc(), &words)?,
        &Ask::Export { file, export },
    );
    Ok(())
}

#[test]
fn stream_takes_a_file_and_a_moment(rt: HostRuntime) -> Result<(), Fail> {
    for (line, until, progress) in [
        ("ringplay stream two.toml", None, false),
        ("ringplay stream two.toml --until 9 --quiet", Some(9), false),
        (
            "ringplay stream --progress --until=1000000000000 two.toml",
            Some(1_000_000_000_000),
            true,
        ),
    ] {
        let words = words(rt.alloc(), line)?;
        let file = String::from_str(rt.alloc(), "two.toml")?;
        let wanted = Ask::Stream {
            file,
            until,
            progress,
            audit: false,
        };
        equal(&rt, &ask(rt.alloc(), &words)?, &wanted);
    }
    Ok(())
}

#[test]
fn other_words_get_a_usage_text(rt: HostRuntime) -> Result<(), Fail> {
    for (line, shown) in [
        ("ringplay", "Usage: ringplay <COMMAND>"),
        ("ringplay run", "<FILE>"),
        ("ringplay run ring.toml --workers 0", "0 is not in 1..=64"),
        ("ringplay run ring.toml --workers 65", "65 is not in 1..=64"),
        ("ringplay run ring.toml --last 0", "0 is not in 1..=10000"),
        (
            "ringplay run ring.toml --last 10001",
            "10001 is not in 1..=10000",
        ),
        ("ringplay run ring.toml --last x", "invalid value 'x'"),
        (
            "ringplay run a.toml --last 1 --last 2",
            "cannot be used multiple times",
        ),
        ("ringplay audit", "<FILE>"),
        ("ringplay audit ring.toml 3", "unexpected argument '3'"),
        ("ringplay decode dc0302", "unexpected argument 'dc0302'"),
        ("ringplay decode decode", "unexpected argument 'decode'"),
        ("ringplay export ring.toml", "--to <FORM>"),
        ("ringplay export ring.toml --to png", "invalid value 'png'"),
        (
            "ringplay export ring.toml --to svg --from 5 --until 4",
            "--from 5 is past --until 4",
        ),
        (
            "ringplay stream ring.toml --until 1000000000001",
            "1000000000001 is not in 1..=1000000000000",
        ),
        (
            "ringplay stream ring.toml --progress=5",
            "unexpected value '5'",
        ),
        (
            "ringplay run ring.toml --progress",
            "unexpected argument '--progress'",
        ),
        (
            "ringplay --verbose decode",
            "unexpected argument '--verbose'",
        ),
        ("ringplay --help", "a telegram a line"),
        ("ringplay help", "a telegram a line"),
        ("ringplay decode --help", "Usage: ringplay decode"),
    ] {
        let words = words(rt.alloc(), line)?;
        let answer = ask(rt.alloc(), &words);
        let Err(AskFault::Usage(text)) = answer else {
            return Err(Fail::from("not usage"));
        };
        assert!(rt; text.as_str().contains(shown), "{line}: {text}");
    }
    Ok(())
}
