//! The program `awari`: the commands of `awari_cli` over the process's words and streams, and the
//! host's disk.
#![tactic(auto)]

use awari_cli::{Answers, Disk, Streams, run};
use awari_sources::SOURCES;
use awari_words::joined;
use std::env::Env;
use std::io::IsTerminal;
use std::process::ExitCode;
use std::{env, io, str};

/// More bytes than Linux lets a word have.
const WORD_ROOM: usize = 1 << 17;

fn main(rt: HostRuntime) -> ExitCode {
    match words(rt) {
        Ok(words) => {
            let mut streams = Streams {
                input: rt.stdin(),
                output: Answers::new(rt.stdout()),
                errors: rt.stderr(),
            };
            let on_terminal = streams.errors.is_terminal();
            let mut disk = Disk::new(&rt, rt.alloc()).told_on_terminal(on_terminal);
            let status = run(&rt, rt.alloc(), &mut disk, words.as_slice(), &mut streams);
            streams.output.tell(&mut streams.errors);
            if asks_version(words.as_slice()) {
                // There is nowhere to say that this could not be written.
                let _ = eprintln!(rt; "sources {SOURCES}");
            }
            ExitCode::from(status)
        }
        Err(error) => {
            // There is nowhere to say that this could not be written.
            let _ = match bad_word(rt) {
                Some(number) => eprintln!(rt; "error: word {number} is not UTF-8"),
                None => eprintln!(rt; "error: {error}"),
            };
            ExitCode::from(2)
        }
    }
}

/// The program's words, of which the first is its own name. Each span below zero, and each order from
/// the greatest on, is joined to its option.
fn words(rt: HostRuntime) -> io::Result<Vec<String>> {
    let words: Vec<String> = env::args(&rt)?.collect(rt.alloc())?;
    Ok(joined(rt.alloc(), words.as_slice())?)
}

/// Whether the words ask for the version, which is told by its number and then by its sources.
fn asks_version(words: &[String]) -> bool {
    words.len() > 1 && matches!(words[1].as_str(), "--version" | "-V")
}

/// Which word is the first that is not UTF-8. The first one behind the program's name has number 1.
fn bad_word(rt: HostRuntime) -> Option<usize> {
    let mut room = vec![in rt.alloc(); 0u8; WORD_ROOM].ok()?;
    for number in 0..usize::MAX {
        let count = rt.arg(number, &mut room).ok()?;
        if str::from_utf8(&room[..count]).is_err() {
            return Some(number);
        }
    }
    None
}
