//! The proof joiner's program: arguments, files and printing only.
#![tactic(auto)]

use answers::refusal::Refusal;
use std::env;
use std::process::ExitCode;

mod commands;
mod files;

fn main(rt: HostRuntime) -> anyhow::Result<ExitCode> {
    let mut args = env::args(&rt)?;
    let _name = args.next();
    match (args.next(), args.next(), args.next()) {
        (None, None, None) => commands::job(&rt),
        (Some(command), None, None) => commands::alone(&rt, command.as_str()),
        (Some(command), Some(file), None) => commands::with_file(
            &rt,
            command.as_str(),
            file.as_str(),
        ),
        _ => commands::misused(&rt),
    }
}
