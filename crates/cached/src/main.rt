//! A cache that is served by lines.
#![tactic(auto)]

use cache_run::Watched;
use cached_server::{cached, without_words};
use std::env::Env;
use std::process::ExitCode;
use std::{env, io};

/// The program's words.
fn gather_words<R: Env + Alloc>(rt: &R) -> io::Result<Vec<String<R::A>, R::A>> {
    Ok(env::args(rt)?.collect(rt.alloc())?)
}

fn main(rt: HostRuntime) -> ExitCode {
    let mut reader = Watched::new(rt.stdin());
    let mut writer = Watched::new(rt.stdout());
    let mut errors = Watched::new(rt.stderr());
    match gather_words(&rt) {
        Ok(words) => ExitCode::from(cached(
            rt,
            rt.alloc(),
            &words,
            &mut reader,
            &mut writer,
            &mut errors,
            (rt.stdout(), rt.stderr()),
        )),
        Err(error) => ExitCode::from(without_words(error.kind(), &mut errors)),
    }
}
