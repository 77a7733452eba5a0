// polynomials: the arithmetic library at work. It multiplies and inverts polynomials, checks what it got, and says so.
#![tactic(auto)]

use std::env;
use std::process::ExitCode;

mod demo;
mod draws;
mod fault;
mod time;
mod work;

use fault::Fault;

const HELP: &str = "polynomials: the arithmetic library at work

  polynomials          multiplies and inverts at n = 5, 7 and 701, checks the inverses by multiplying back, and says so
  polynomials words    prints the inverses at n = 701, coefficient by coefficient, to compare with another implementation
  polynomials time     prints the best time of many for each operation at n = 701, in nanoseconds";

fn run(rt: &HostRuntime) -> Result<(), Fault> {
    match env::args(rt)?.nth(1).as_deref() {
        None => demo::run(rt),
        Some("words") => demo::words(rt),
        Some("time") => time::run(rt),
        Some(_) => Ok(rt.println(HELP)?),
    }
}

fn main(rt: HostRuntime) -> ExitCode {
    match run(&rt) {
        Ok(()) => ExitCode::SUCCESS,
        Err(fault) => {
            // Where nothing can be printed either, the status tells.
            let _ = rt.eprintln(&fault);
            ExitCode::FAILURE
        }
    }
}
