// bench: make, the key test, seal and open at set 3, once or timed. tools/bench/run.py holds the times against a plain C product.
#![tactic(auto)]

use std::env;
use std::process::ExitCode;

mod fault;
mod time;

use fault::Fault;
use time::Trial;

const HELP: &str = "bench: make, the key test, seal and open at set 3

  bench         does each once and says so
  bench time    prints the best time of many for each, in nanoseconds";

fn run(rt: &HostRuntime) -> Result<(), Fault> {
    match env::args(rt)?.nth(1).as_deref() {
        None => time::run(rt, Trial::Once),
        Some("time") => time::run(rt, Trial::Timed(300)),
        Some(_) => Ok(rt.println(HELP)?),
    }
}

fn main(rt: HostRuntime) -> ExitCode {
    match run(&rt) {
        Ok(()) => ExitCode::SUCCESS,
        Err(fault) => {
            // Where nothing can be printed either, the status tells.
            let _ = rt.eprintln(&fault);
            ExitCode::FAILURE
        }
    }
}
