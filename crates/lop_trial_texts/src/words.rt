// Words that are commands, and words that are none.
use crate::expected::{same, same_at};
use clap::{Arg, ArgMatches};
use lop_words::{Command, Format, WordsFault, read_words};
use std::alloc::{AllocError, Global};
use std::process::Abort;
use std::test::Fail;

fn owned(alloc: Global, words: &[&str]) -> Result<Vec<String>, AllocError> {
    let mut all = Vec::new(alloc);
    for word in words {
        all.push(String::from_str(alloc, word)?)?;
    }
    Ok(all)
}

fn format_name(format: Format) -> &'static str {
    match format {
        Format::Lolib => "lolib",
        Format::Preflib => "preflib",
    }
}

// A command in one line, with `-` for no certificate.
fn shown(alloc: Global, command: &Command) -> Result<String, AllocError> {
    match command {
        Command::Solve {
            format,
            file,
            workers,
            nodes,
            cert,
        } => {
            let cert = match cert {
                Some(cert) => cert.text(),
                None => "-",
            };
            let format = format_name(*format);
            format!(in alloc; "solve {format} {} {workers} {nodes} {cert}", file.text())
        }
        Command::Check { format, file, cert } => {
            let format = format_name(*format);
            format!(in alloc; "check {format} {} {}", file.text(), cert.text())
        }
        Command::Value {
            format,
            file,
            order_file,
        } => {
            let format = format_name(*format);
            format!(in alloc; "value {format} {} {}", file.text(), order_file.text())
        }
        Command::Gen { seed, n } => format!(in alloc; "gen {seed} {n}"),
    }
}

fn reads(rt: &impl Abort, alloc: Global, words: &[&str], expected: &str) -> Result<(), Fail> {
    let words = owned(alloc, words)?;
    match read_words(alloc, &words) {
        Ok(command) => same(rt, &shown(alloc, &command)?.as_str(), &expected),
        Err(fault) => same_at(rt, &Some(fault), &None, expected),
    }
    Ok(())
}

fn refuses(rt: &impl Abort, alloc: Global, words: &[&str]) -> Result<(), Fail> {
    let owned = owned(alloc, words)?;
    let fault = read_words(alloc, &owned).err();
    same(rt, &(words, fault), &(words, Some(WordsFault::Usage)));
    Ok(())
}

fn words_of<'a>(alloc: Global, line: &'a str) -> Result<Vec<&'a str>, AllocError> {
    line.split(' ').collect(alloc)
}

/// A line of words, which single blanks part, and the command that they are.
const READ: &[(&str, &str)] = &[
    ("solve lolib a", "solve lolib a 1 10000 -"),
    ("solve lolib a --nodes 1", "solve lolib a 1 1 -"),
    ("solve lolib a --workers 1", "solve lolib a 1 10000 -"),
    ("solve lolib a --workers 16", "solve lolib a 16 10000 -"),
    ("solve lolib a --nodes 1 --cert c", "solve lolib a 1 1 c"),
    (
        "solve lolib a --cert c --workers 2 --nodes 9",
        "solve lolib a 2 9 c",
    ),
    (
        "solve preflib b- --cert é --nodes 1000000",
        "solve preflib b- 1 1000000 é",
    ),
    ("solve preflib b- --cert é", "solve preflib b- 1 10000 é"),
    ("check lolib a a", "check lolib a a"),
    ("check preflib a c", "check preflib a c"),
    ("value lolib a o", "value lolib a o"),
    ("value preflib é é", "value preflib é é"),
    ("gen 0 1", "gen 0 1"),
    ("gen 600 512", "gen 600 512"),
    ("gen 18446744073709551615 3", "gen 18446744073709551615 3"),
];

#[test]
fn commands(rt: HostRuntime) -> Result<(), Fail> {
    let a = rt.alloc();
    for (line, command) in READ {
        reads(&rt, a, &words_of(a, line)?, command)?;
    }
    Ok(())
}

/// Lines whose words, which single blanks part, are no command.
const REFUSED: &[&str] = &[
    "",
    "solve lolib",
    "solve lolib ",
    "solve lolib -a",
    "solve other a",
    "Solve lolib a",
    "solve --nodes 3 lolib a",
    "solve --workers 3 lolib a",
    "solve lolib a b",
    "check lolib a",
    "check lolib a -c",
    "check lolib a c --nodes 3",
    "check lolib a c --workers 3",
    "value lolib a",
    "value lolib a -o",
    "value lolib a ",
    "value lolib -a o",
    "value other a o",
    "value lolib a o x",
    "value lolib a o --workers 1",
    "values lolib a o",
    "gen",
    "gen 1",
    "gen 1 3 4",
    "gen 1 3 --nodes 5",
    "gen 1 3 --workers 1",
    "gen lolib a",
    "gen 18446744073709551616 3",
    "gen 01 3",
    "gen +1 3",
    "gen -1 3",
    "gen  3",
    "gen 1a 3",
    "gen 1 0",
    "gen 1 513",
    "gen 1 03",
    "gen 1 65537",
    "gen 1 18446744073709551617",
    "gen 1 ",
    "gen 1 n",
];

/// The same for what stands behind `solve lolib a`.
const NO_OPTIONS: &[&str] = &[
    "--workers",
    "--workers=2",
    "--workers 0",
    "--workers 17",
    "--workers 02",
    "--workers +2",
    "--workers ",
    "--workers x",
    "--workers 4294967297",
    "--workers 18446744073709551617",
    "--workers 2 --workers 2",
    "--worker 2",
    "-w 2",
    "--nodes",
    "--nodes=2",
    "--nodes 0",
    "--nodes 010",
    "--nodes +1",
    "--nodes 1000001",
    "--nodes 18446744073709551616",
    "--nodes ",
    "--nodes --",
    "--nodes 2 --nodes 2",
    "--cert --nodes --nodes 7",
    "--cert c --cert d",
    "--cert -",
    "--cert a",
];

#[test]
fn no_commands(rt: HostRuntime) -> Result<(), Fail> {
    let a = rt.alloc();
    refuses(&rt, a, &[])?;
    for line in REFUSED {
        refuses(&rt, a, &words_of(a, line)?)?;
    }
    for options in NO_OPTIONS {
        let line = format!(in a; "solve lolib a {options}")?;
        refuses(&rt, a, &words_of(a, line.as_str())?)?;
    }
    Ok(())
}

// A command whose verb is followed by a format and a file.
fn with_file<'a>(alloc: Global, verb: &'a str) -> Result<clap::Command<'a>, clap::Error> {
    let format = Arg::new(alloc, "format")
        .required(true)
        .value_parser(["lolib", "preflib"].as_slice());
    let file = Arg::new(alloc, "file").required(true);
    Ok(clap::Command::new(alloc, verb).arg(format)?.arg(file)?)
}

// The same commands, as `clap` reads them.
fn clap_matches<'a>(alloc: Global, words: &'a [&'a str]) -> Result<ArgMatches<'a>, clap::Error> {
    let solve = with_file(alloc, "solve")?
        .arg(
            Arg::new(alloc, "workers")
                .long("workers")
                .default_value("1"),
        )?
        .arg(
            Arg::new(alloc, "nodes")
                .long("nodes")
                .default_value("10000"),
        )?
        .arg(Arg::new(alloc, "cert").long("cert"))?;
    let check = with_file(alloc, "check")?.arg(Arg::new(alloc, "cert").required(true))?;
    let value = with_file(alloc, "value")?.arg(Arg::new(alloc, "order").required(true))?;
    let gen_command = clap::Command::new(alloc, "gen")
        .arg(Arg::new(alloc, "seed").required(true))?
        .arg(Arg::new(alloc, "n").required(true))?;
    clap::Command::new(alloc, "lop")
        .no_binary_name(true)
        .subcommand(solve)?
        .subcommand(check)?
        .subcommand(value)?
        .subcommand(gen_command)?
        .try_get_matches_from(words)
}

fn agrees_with_clap(rt: &impl Abort, alloc: Global, words: &[&str]) -> Result<(), Fail> {
    let matches = clap_matches(alloc, words)?;
    let (verb, found) = matches.subcommand().ok_or("no subcommand")?;
    let mut line = String::from_str(alloc, verb)?;
    for name in names_behind(verb) {
        line.push(' ')?;
        line.push_str(found.get_str(name).unwrap_or("-"))?;
    }
    reads(rt, alloc, words, line.as_str())
}

// The arguments of a command, in the order in which it is shown.
fn names_behind(verb: &str) -> &'static [&'static str] {
    match verb {
        "solve" => &["format", "file", "workers", "nodes", "cert"],
        "check" => &["format", "file", "cert"],
        "value" => &["format", "file", "order"],
        _ => &["seed", "n"],
    }
}

const AS_CLAP_READS: &[&str] = &[
    "solve lolib sectors.txt",
    "solve lolib sectors.txt --nodes 7 --workers 3",
    "check lolib tie.txt tie.cert",
    "solve preflib lunch.soc --cert c",
    "value lolib tie.txt tie.order",
    "gen 7 12",
];

#[test]
fn clap_agrees(rt: HostRuntime) -> Result<(), Fail> {
    let a = rt.alloc();
    for line in AS_CLAP_READS {
        agrees_with_clap(&rt, a, &words_of(a, line)?)?;
    }
    Ok(())
}
