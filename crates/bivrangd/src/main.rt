//! A cache that is served by lines, or by the memcache text protocol, to many connections.
#![tactic(auto)]

use bivrangd_server::bivrangd;
use cache_run::Watched;
use std::env::Env;
use std::process::ExitCode;
use std::{env, io};

/// The program's words.
fn gather_words<R: Env + Alloc>(rt: &R) -> io::Result<Vec<String<R::A>, R::A>> {
    Ok(env::args(rt)?.collect(rt.alloc())?)
}

fn main(rt: HostRuntime) -> ExitCode {
    let mut writer = Watched::new(rt.stdout());
    match gather_words(&rt) {
        Ok(words) => ExitCode::from(bivrangd(
            rt,
            rt.alloc(),
            &words,
            rt.stdin(),
            &mut writer,
            rt.stderr(),
            (rt.stdout(), rt.stderr()),
        )),
        Err(_) => ExitCode::from(2),
    }
}
