//! Transcripts of caches that are served by lines, replayed.
#![tactic(auto)]

mod auditing;
mod program;
mod replaying;

use crate::program::{transcript, without_words};
use std::env::Env;
use std::process::ExitCode;
use std::{env, io};

/// The program's words.
fn gather_words<R: Env + Alloc>(rt: &R) -> io::Result<Vec<String<R::A>, R::A>> {
    let mut words = Vec::new(rt.alloc());
    for word in env::args(rt)? {
        words.push(word)?;
    }
    Ok(words)
}

fn main(rt: HostRuntime) -> ExitCode {
    let mut reader = rt.stdin();
    let mut writer = rt.stdout();
    let mut errors = rt.stderr();
    match gather_words(&rt) {
        Ok(words) => ExitCode::from(transcript(
            rt.alloc(),
            &words,
            &mut reader,
            &mut writer,
            &mut errors,
        )),
        Err(error) => ExitCode::from(without_words(error.kind(), &mut errors)),
    }
}
