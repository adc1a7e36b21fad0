//! The program: it runs the command of its words over real files and standard output.
#![tactic(auto)]

use rsml::{Status, memory_lines, run};
use rsml_io::{OsFiles, OsSink};
use std::io::Write;
use std::process::ExitCode;
use std::rt::Env;
use std::{env, io};

/// The words after the program's name.
fn words_of<R: Env + AllocGlobal>(rt: &R) -> io::Result<Vec<String>> {
    let mut words = Vec::new(rt.alloc());
    for word in env::args(rt)?.skip(1) {
        words.push(word)?;
    }
    Ok(words)
}

/// Tells on standard error for what memory was refused, where that is known. What cannot be written there is lost.
fn tell_memory(rt: &HostRuntime, words: &[String], files: &mut OsFiles<'_, HostRuntime>) {
    if let Ok(lines) = memory_lines(rt.alloc(), words, files) {
        let _ = rt.stderr().write_all(lines.as_slice());
    }
}

/// Runs the command of the words.
fn status_of(rt: &HostRuntime, words: &[String], files: &mut OsFiles<'_, HostRuntime>) -> Status {
    let mut sink = OsSink::new(io::writer(rt));
    run(rt.alloc(), words, files, &mut sink)
}

fn main(rt: HostRuntime) -> ExitCode {
    let Ok(words) = words_of(&rt) else {
        return ExitCode::from(Status::NoMemory.number());
    };
    let mut files = OsFiles::new(rt.alloc(), &rt);
    let status = status_of(&rt, words.as_slice(), &mut files);
    if status == Status::NoMemory {
        tell_memory(&rt, words.as_slice(), &mut files);
    }
    ExitCode::from(status.number())
}
