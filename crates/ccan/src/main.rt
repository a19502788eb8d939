//! Runs the register script on standard input, and writes its answers and the final objects on standard output.
//!
//! `ccan` and `ccan run` run the lines one after another, in the order of the script. `ccan threads` runs the lines of
//! each port in a thread of its own, all three over one memory without a lock, whatever the script's order says; the
//! answers of IF1 come first then, and after them those of IF2 and those of the bus.
//!
//! A fault is one line on standard error, and the exit status: 1 if the input is not a script or too long, 2 if the words of
//! the command line are not a mode, 3 if memory ran out, 4 if a read or a write failed or a thread could not be started.
#![tactic(auto)]

use ccan_run::{
    CliError, FreeGate, RunError, RunMode, mode, print_outcome, read_input, run_stream, run_threads,
};
use ccan_words::WordRam;
use std::alloc::AllocError;
use std::env::Env;
use std::fmt::Display;
use std::io::{ErrorKind, Input};
use std::process::ExitCode;
use std::sync::Wait;
use std::thread::Threads;
use std::{env, io};

/// Reports a fault, and gives its exit status.
fn refuse(rt: &impl Eprint, fault: &(impl Display + Drop), status: u8) -> ExitCode {
    let _told = rt.eprintln(fault);
    ExitCode::from(status)
}

/// What it means that the words of the command line can't be had.
fn unread(error: &io::Error) -> CliError {
    match error.kind() {
        ErrorKind::OutOfMemory => CliError::Memory,
        _ => CliError::Words,
    }
}

/// The mode that the command line says.
fn mode_asked(rt: &(impl Env + AllocGlobal)) -> Result<RunMode, CliError> {
    let args = match env::args(rt) {
        Ok(args) => args,
        Err(error) => return Err(unread(&error)),
    };
    let words: Result<Vec<String>, AllocError> = args.collect(rt.alloc());
    mode(rt.alloc(), words?.as_slice())
}

/// Reads a script, runs its three ports in threads, and prints what they came to.
fn run_at_once<T: AllocGlobal + Input + Print + Threads + Wait + Sync>(
    rt: &T,
) -> Result<(), RunError> {
    let script = read_input(rt.alloc(), &mut rt.reader())?;
    let outcome = run_threads::<WordRam, FreeGate, T>(rt, rt.alloc(), &script, &FreeGate)?;
    print_outcome(&outcome, &mut io::writer(rt))
}

fn main(rt: HostRuntime) -> ExitCode {
    let ran = match mode_asked(&rt) {
        Ok(RunMode::Run) => run_stream(rt.alloc(), &mut rt.reader(), &mut io::writer(&rt)),
        Ok(RunMode::Threads) => run_at_once(&rt),
        Err(fault) => return refuse(&rt, &fault, fault.status()),
    };
    match ran {
        Ok(()) => ExitCode::SUCCESS,
        Err(fault) => refuse(&rt, &fault, fault.status()),
    }
}
