//! `walrus`: the core of a blob storage network.
#![tactic(auto)]

use std::process::ExitCode;
use std::{env, io};
use wal_port::{StdSink, StdSource};
use wal_run::{NO_MEMORY, run};
use wal_tree::Sha;

/// The status of a run whose words the runtime does not give.
const NO_WORDS: u8 = 11;

/// The words of the command line without the program's own name, or the status where they are not
/// there.
fn words_of(rt: &HostRuntime) -> Result<Vec<String>, u8> {
    let given = match env::args(rt) {
        Ok(given) => given,
        Err(e) => {
            return if e.kind() == io::ErrorKind::OutOfMemory {
                Err(NO_MEMORY)
            } else {
                Err(NO_WORDS)
            };
        }
    };
    let mut words = Vec::new(rt.alloc());
    for word in given.skip(1) {
        if words.push(word).is_err() {
            return Err(NO_MEMORY);
        }
    }
    Ok(words)
}

fn main(rt: HostRuntime) -> ExitCode {
    let words = match words_of(&rt) {
        Ok(words) => words,
        Err(status) => return ExitCode::from(status),
    };
    let mut source = StdSource::create(rt.reader());
    let mut sink = StdSink::create(io::writer(&rt));
    ExitCode::from(run::<Sha, _, _>(rt.alloc(), &words, &mut source, &mut sink))
}
