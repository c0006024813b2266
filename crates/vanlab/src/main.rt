//! The program `vanlab`: one subcommand a file.
#![tactic(auto)]

mod command;
mod network;
mod report_json;
mod script;
mod shelf;

use crate::command::{COMMANDS, Command};
use crate::script::Printed;
use anyhow::Result;
use clap::ArgMatches;
use command_table::{Fault, Group, Parsed, Program, help_text, parse, process_words};
use std::io;
use std::process::ExitCode;
use std::sync::Wait;
use std::thread::Threads;
use x12_answering::VERSION;

const ABOUT: &str = "Answers X12 transmissions (version 004010), and runs a network from a script";

/// Runs the command of these words.
fn run_command<T: Threads + Wait + Sync>(
    rt: &HostRuntime,
    threads: &T,
    command: Command,
    found: &ArgMatches<'_>,
) -> Result<ExitCode> {
    match command {
        Command::Answer => Ok(answer_command::run(rt, found)?),
        Command::Network => network::run(rt, threads, found),
        Command::Script => script::run(rt, Printed::Lines, found),
        Command::Report => script::run(rt, script::printed_of(found), found),
    }
}

/// Runs the command that these words name.
fn run<T: Threads + Wait + Sync>(
    rt: &HostRuntime,
    threads: &T,
    words: &[String],
) -> Result<ExitCode> {
    let groups = [Group {
        title: "Commands",
        commands: &COMMANDS,
    }];
    let vanlab = Program {
        name: "vanlab",
        version: VERSION,
        about: ABOUT,
        groups: &groups,
    };
    let help = help_text(rt.alloc(), &vanlab)?;
    match parse(rt, &vanlab, help.as_str(), words)? {
        Parsed::Found(command, found) => run_command(rt, threads, command, &found),
        Parsed::Ended(ending) => Ok(ExitCode::from(ending.status())),
    }
}

/// Says that an argument isn't UTF-8; any other fault, which is want of memory, ends the program.
fn unreadable(rt: &HostRuntime, fault: Fault) -> Result<ExitCode> {
    match fault {
        Fault::System(error) if error.kind() == io::ErrorKind::InvalidData => {
            eprintln!(rt; "error: an argument isn't UTF-8")?;
            Ok(ExitCode::from(2))
        }
        fault => Err(fault.into()),
    }
}

fn main(rt: HostRuntime) -> Result<ExitCode> {
    match process_words(&rt) {
        Ok(words) => run(&rt, &rt, &words),
        Err(fault) => unreadable(&rt, fault),
    }
}
