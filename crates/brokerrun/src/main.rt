//! The program: a script comes on standard input, and its transcript goes to standard output.
#![tactic(auto)]

use sb_outside::{StdSink, StdSource};
use sb_top::{Why, run};
use std::io::ErrorKind;
use std::process::ExitCode;
use std::{env, io};

fn main(rt: HostRuntime) -> ExitCode {
    match words(&rt) {
        Ok(words) => {
            let mut source = StdSource::new(rt);
            let mut sink = StdSink::new(rt);
            let ended = run(rt.alloc(), words.as_slice(), &mut source, &mut sink);
            end(&rt, ended.why)
        }
        Err(error) if error.kind() == ErrorKind::OutOfMemory => end(&rt, Why::OutOfMemory),
        // A word that is no text is no word of the program.
        Err(_) => end(&rt, Why::Usage),
    }
}

// The words behind the program's name.
fn words(rt: &HostRuntime) -> io::Result<Vec<String>> {
    let mut words = Vec::new(rt.alloc());
    for word in env::args(rt)?.skip(1) {
        words.push(word)?;
    }
    Ok(words)
}

// Ends with the status, and tells its name on standard error where it isn't 0.
fn end(rt: &HostRuntime, why: Why) -> ExitCode {
    let status = why.status();
    if status != 0 {
        let _ = eprintln!(rt; "{}", why.name());
    }
    ExitCode::from(status)
}
