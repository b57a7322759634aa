//! What the program does for each command.
use crate::files;
use answers::refusal::Refusal;
use formula::formula::Formula;
use formula_text::describe::{Description, Summary};
use record_source::cursor::RecordSource;
use source::marked::Marked;
use source_text::list::list;
use std::fmt;
use std::io::Write;
use std::process::ExitCode;
use text_source::cursor::TextSource;

const USAGE: &str =
    "usage: lanykuv                  read the formula f.cnf of this folder\n       lanykuv formula FILE     read a formula and print it\n       lanykuv items FILE       print the items of a partial proof in LRAT text\n       lanykuv records FILE     print the items of a partial proof in records\n       lanykuv help             print this\n";

/// The files of the current folder.
pub(crate) fn job(rt: &HostRuntime) -> anyhow::Result<ExitCode> {
    show(rt, "f.cnf", |text, formula| {
        let summary = Summary(formula);
        write!(text, "{summary}")?;
        Ok(())
    })
}

/// A command that takes no file.
pub(crate) fn alone(rt: &HostRuntime, command: &str) -> anyhow::Result<ExitCode> {
    match command {
        "help" => {
            rt.print(USAGE)?;
            Ok(ExitCode::SUCCESS)
        }
        _ => misused(rt),
    }
}

/// A command that takes a file.
pub(crate) fn with_file(rt: &HostRuntime, command: &str, file: &str) -> anyhow::Result<ExitCode> {
    match command {
        "formula" => show(rt, file, |text, formula| {
            let description = Description(formula);
            write!(text, "{description}")?;
            Ok(())
        }),
        "items" => {
            let bytes = files::read(rt, file)?;
            show_items(rt, &mut TextSource::new(bytes.as_slice()))
        }
        "records" => {
            let bytes = files::read(rt, file)?;
            show_items(rt, &mut RecordSource::new(bytes.as_slice()))
        }
        _ => misused(rt),
    }
}

/// No command of the usage.
pub(crate) fn misused(rt: &HostRuntime) -> anyhow::Result<ExitCode> {
    rt.eprint(USAGE)?;
    Ok(ExitCode::FAILURE)
}

// Reads a formula and prints what `describe` writes of it. Want of memory there is a `fmt::Error`, as in `list`.
fn show<F: FnOnce(&mut String, &Formula) -> fmt::Result>(
    rt: &HostRuntime,
    path: &str,
    describe: F,
) -> anyhow::Result<ExitCode>
    requires { F.IsAlwaysCallable describe }
{
    let heap = rt.alloc();
    let bytes = files::read(rt, path)?;
    let mut literals = files::literal_table(heap, bytes.as_slice())?;
    let mut spans = files::span_table(heap, bytes.as_slice())?;
    let mut formula = Formula::over(literals.as_mut_slice(), spans.as_mut_slice());
    if let Err(refusal) = formula.read(bytes.as_slice()) {
        return refuse(rt, path, refusal);
    }
    let mut text = String::new(heap);
    describe(&mut text, &formula)?;
    rt.stdout().write_all(text.as_bytes())?;
    Ok(ExitCode::SUCCESS)
}

// Prints the items of a source, and its ending.
fn show_items<S: Marked>(rt: &HostRuntime, source: &mut S) -> anyhow::Result<ExitCode> {
    let mut text = String::new(rt.alloc());
    list(&mut text, source)?;
    rt.stdout().write_all(text.as_bytes())?;
    Ok(ExitCode::SUCCESS)
}

// Prints the refusal's line, and what it means on standard error.
fn refuse(rt: &HostRuntime, path: &str, refusal: Refusal) -> anyhow::Result<ExitCode> {
    rt.println(refusal)?;
    let place = refusal.place;
    let meaning = refusal.fault;
    eprintln!(rt; "lanykuv: {path}, line {place}: {meaning}")?;
    Ok(ExitCode::FAILURE)
}
