//! The program: the words and the standard streams, handed to `run`, whose status is the exit status. Words with `--help` or
//! `--version`, for which `run` has no job, are answered before.
#![tactic(auto)]

mod help;

use command_line::fault_line;
use help::{HELP, VERSION};
use seq_io::{StdSink, StdSource, write_whole};
use sequencer::{Status, run};
use std::env;
use std::process::ExitCode;
use std::rt::Env;

// The words after the program's name, or the status that says why they can't be had.
fn words(rt: &(impl Env + AllocGlobal)) -> Result<Vec<String>, Status> {
    let args = env::args(rt).map_err(|error| Status::without_words(error.kind()))?;
    args.skip(1).collect(rt.alloc()).map_err(|_| Status::Memory)
}

// What the program tells of itself, if the words ask for that.
fn about(words: &[String]) -> Option<&'static str> {
    for word in words {
        match word.as_str() {
            "--help" => return Some(HELP),
            "--version" => return Some(VERSION),
            _ => {}
        }
    }
    None
}

// Writes what went wrong, and which word, where words ask for no job.
fn complain(rt: &HostRuntime, status: Status, words: Option<&[String]>) {
    let Some(complaint) = status.complaint() else {
        return;
    };
    let fault = match words {
        Some(words) if status == Status::Usage => fault_line(rt.alloc(), words).ok(),
        _ => None,
    };
    let _ = match fault {
        Some(fault) => eprintln!(rt; "strips: {fault}; {complaint}"),
        None => eprintln!(rt; "strips: {complaint}"),
    };
}

fn main(rt: HostRuntime) -> ExitCode {
    let words = match words(&rt) {
        Ok(words) => words,
        Err(status) => {
            complain(&rt, status, None);
            return ExitCode::from(status.number());
        }
    };
    let mut sink = StdSink::new(rt.stdout());
    let status = match about(&words) {
        Some(text) => match write_whole(&mut sink, text.as_bytes()) {
            Ok(()) => Status::Done,
            Err(_) => Status::WriteFault,
        },
        None => {
            let mut source = StdSource::new(rt.stdin());
            run(&rt, rt.alloc(), &words, &mut source, &mut sink)
        }
    };
    complain(&rt, status, Some(&words));
    ExitCode::from(status.number())
}
