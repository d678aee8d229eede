//! The program `hwdb`: hands its words, its files, standard input, output and error to `hwdb_tool::program`.
#![tactic(auto)]

mod allowed;
mod bypass;
mod colours;
mod input;

use allowed::status_of_names;
use bypass::status_of_bypass;
use colours::coloured_kind;
use hwdb_tool::{Coloured, FromRead, SystemStore, TextKind, ToWrite, program, write_text};
use input::input_of;
use std::env;
use std::fs::{File, OpenOptions};
use std::io::{self, ErrorKind, IsTerminal};
use std::os::fd::AsFd;
use std::process::ExitCode;

/// What is said if there is no memory before the program begins.
const MEMORY: &str = "hwdb: out of memory\n";

/// The words of the command line, the first of which is the program's name.
fn words_of(rt: &HostRuntime) -> io::Result<Vec<String>> {
    let words = env::args(rt)?.collect(rt.alloc())?;
    Ok(words)
}

/// What holds the number of a standard stream that is closed, so that no file of ours gets it. Else a line for standard
/// error would be written into the database. It is opened for the other direction: each use of the stream still fails.
fn held<S: AsFd>(rt: &HostRuntime, stream: &S, is_output: bool) -> io::Result<Option<File>> {
    if stream.as_fd().try_clone_to_owned().is_ok() {
        return Ok(None);
    }
    let mut options = OpenOptions::new();
    options.read(is_output).write(!is_output);
    // A new file gets the lowest number that is free.
    let null = options.open(rt, "/dev/null")?;
    Ok(Some(null))
}

/// What holds the numbers of all standard streams that are closed.
fn held_streams(rt: &HostRuntime) -> io::Result<[Option<File>; 3]> {
    let input = held(rt, &rt.stdin(), false)?;
    let output = held(rt, &rt.stdout(), true)?;
    let error = held(rt, &rt.stderr(), true)?;
    Ok([input, output, error])
}

fn main(rt: HostRuntime) -> ExitCode {
    let held = held_streams(&rt);
    let alloc = rt.alloc();
    let at_terminal = rt.stderr().is_terminal();
    let mut err = Coloured::new(
        alloc,
        ToWrite::new(rt.stderr()),
        TextKind::Plain,
        at_terminal,
    );
    if held.is_err() {
        let line = "hwdb: a standard stream is closed, and /dev/null cannot be opened\n";
        let _ = write_text(&mut err, line.as_bytes());
        return ExitCode::from(1);
    }
    let mut system = SystemStore::new(alloc, &rt);
    match words_of(&rt) {
        Ok(words) => {
            let Some(kind) = coloured_kind(&rt, &words, &mut err) else {
                return ExitCode::from(1);
            };
            if let Some(status) = status_of_names(&rt, &words, &mut err) {
                return ExitCode::from(status);
            }
            if let Some(status) = status_of_bypass(&rt, &words, &mut err) {
                return ExitCode::from(status);
            }
            let Ok(input) = input_of(&rt, &words) else {
                let _ = write_text(&mut err, MEMORY.as_bytes());
                return ExitCode::from(1);
            };
            let mut input = FromRead::new(input);
            let is_seen = rt.stdout().is_terminal();
            let mut out = Coloured::new(alloc, ToWrite::new(rt.stdout()), kind, is_seen);
            let status = program(
                alloc,
                &words,
                &mut system,
                &mut input,
                &mut out,
                &mut err,
                at_terminal,
            );
            ExitCode::from(status)
        }
        Err(error) => {
            let line = match error.kind() {
                ErrorKind::OutOfMemory => MEMORY,
                _ => "hwdb: a word of the command line is not UTF-8\n",
            };
            let _ = write_text(&mut err, line.as_bytes());
            ExitCode::from(1)
        }
    }
}
