//! The program. It hands the real words, standard input, standard output and files to the top call, with a gate that is always open and a
//! reporter that counts, and ends with the number of its status; what is promised of it is that call's contract.
#![tactic(auto)]

use heapan_top::run;
use io_ports::{FileKeeper, OpenGate, ReaderSource, WriterSink};
use reporters::{CountReporter, Reporter};
use std::fs::Files;
use std::process::ExitCode;
use std::rt::Env;
use std::sync::Wait;
use std::thread::Threads;
use std::{env, io};

/// What the process ends with where memory for the words is refused; nothing is written then.
const NO_MEMORY: u8 = 8;

/// The words behind the program's name.
fn words<R: Env + AllocGlobal>(rt: &R) -> io::Result<Vec<String>> {
    let mut all = Vec::new(rt.alloc());
    for word in env::args(rt)?.skip(1) {
        all.push(word)?;
    }
    Ok(all)
}

/// Runs the top call on the process's own words and streams. Where a word, or the program's own name, is not text, the
/// words are other words than those that the program takes, as no words are.
fn status<R: Env + AllocGlobal + Files + Input + Print + Threads + Wait + Sync>(rt: &R) -> u8 {
    let alloc = rt.alloc();
    let texts = match words(rt) {
        Ok(texts) => texts,
        Err(fault) if fault.kind() == io::ErrorKind::OutOfMemory => return NO_MEMORY,
        Err(_) => Vec::new(alloc),
    };
    let mut words = Vec::new(alloc);
    for text in &texts {
        if words.push(text.as_str()).is_err() {
            return NO_MEMORY;
        }
    }
    let mut reporters: Vec<Box<dyn Reporter + Send>> = Vec::new(alloc);
    let Ok(counting) = Box::new(alloc, CountReporter::new()) else {
        return NO_MEMORY;
    };
    if reporters.push(counting).is_err() {
        return NO_MEMORY;
    }
    let mut source = ReaderSource::new(rt.reader());
    let mut sink = WriterSink::new(io::writer(rt));
    let mut keeper = FileKeeper::new(rt);
    run(
        rt,
        alloc,
        words.as_slice(),
        &mut source,
        &mut sink,
        &mut keeper,
        &OpenGate,
        reporters,
    )
    .status
    .code()
}

fn main(rt: HostRuntime) -> ExitCode {
    ExitCode::from(status(&rt))
}
