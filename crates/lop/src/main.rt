//! `lop`: an exact solver of the linear ordering problem whose answers are proved.
#![tactic(auto)]

mod real;

use lop_tool::{OpenGate, run};
use real::RealDesk;
use std::alloc::Global;
use std::process::ExitCode;
use std::rt::Env;
use std::{env, io};

/// The status for want of memory.
const MEMORY: u8 = 5;

fn main(rt: HostRuntime) -> ExitCode {
    let alloc = rt.alloc();
    let words = match words(&rt, alloc) {
        Ok(words) => words,
        Err(error) if error.kind() == io::ErrorKind::OutOfMemory => return ExitCode::from(MEMORY),
        // Words that are no text are no command: they are refused as no words are.
        Err(_) => Vec::new(alloc),
    };
    let Ok(threads) = rt.clone() else {
        return ExitCode::from(MEMORY);
    };
    let mut desk = RealDesk::new(rt);
    ExitCode::from(run(&threads, alloc, &words, &mut desk, &OpenGate))
}

// The words after the program's name.
fn words(rt: &(impl Env + AllocGlobal), alloc: Global) -> io::Result<Vec<String>> {
    let words = env::args(rt)?.skip(1).collect(alloc)?;
    Ok(words)
}
