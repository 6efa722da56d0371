//! The program: the words of its command line, the system's files, and an exit status.
#![tactic(auto)]

use safl_io::{DirShelf, StdSink};
use safl_timing::run;
use std::fs::File;
use std::os::fd::AsRawFd;
use std::process::ExitCode;
use std::{env, fs, io};

// The exit status if the words of the command line cannot be read.
const NO_WORDS: u8 = 20;

// The number of standard error, the last of the three standard descriptors.
const LAST_STANDARD: i32 = 2;

fn main(rt: HostRuntime) -> ExitCode {
    let _held = (hold_closed(&rt), hold_closed(&rt), hold_closed(&rt));
    let Ok(words) = words_of(&rt) else {
        return ExitCode::from(NO_WORDS);
    };
    let mut shelf = DirShelf::new(&rt);
    let mut out = StdSink::new(rt.stdout());
    let mut err = StdSink::new(rt.stderr());
    let status = run(rt.alloc(), &words, &mut shelf, &mut out, &mut err);
    ExitCode::from(status.number())
}

// Opens a folder on the lowest standard descriptor that is closed, if there is one. Otherwise a file that is opened
// later would get that number, and what is printed would go into the file. A folder can be neither read nor written as
// a file, so printing there fails, as it should.
fn hold_closed(rt: &HostRuntime) -> Option<File> {
    let file = match fs::open(rt, "/") {
        Ok(file) => file,
        Err(_) => fs::open(rt, "/dev/null").ok()?,
    };
    if file.as_raw_fd() <= LAST_STANDARD {
        Some(file)
    } else {
        None
    }
}

// The words of the command line after the program's name.
fn words_of(rt: &HostRuntime) -> io::Result<Vec<String>> {
    let mut words = Vec::new(rt.alloc());
    for word in env::args(rt)?.skip(1) {
        words.push(word)?;
    }
    Ok(words)
}
