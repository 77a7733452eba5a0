// vectors: carries out the cases of make, seal, open and the key test that stand on standard input, one a line, and prints
// what each gives. The cases and what they must give are made by tools/reference.py, which shares no code with the libraries.
#![tactic(auto)]

use std::io::{BufRead, BufReader};
use std::process::ExitCode;

mod answer;
mod case;
mod fault;
mod hex;

use arithmetic::{Halving, WordByWord};
use case::Case;
use fault::Fault;

fn run(rt: &HostRuntime) -> Result<(), Fault> {
    let heap = rt.alloc();
    for line in BufReader::new(heap, rt.stdin())?.lines(heap) {
        let case = Case::read(heap, line?.as_str())?;
        carry_out(rt, &case)?;
    }
    Ok(())
}

// A case over both row units, which must give the same.
fn carry_out(rt: &HostRuntime, case: &Case) -> Result<(), Fault> {
    let heap = rt.alloc();
    let mut plain = WordByWord::new();
    let mut halving = Halving::new(WordByWord::new());
    let one = answer::line(heap, case, &mut plain)?;
    let other = answer::line(heap, case, &mut halving)?;
    if one.as_str() == other.as_str() {
        println!(rt; "{one}")?;
    } else {
        println!(rt; "word by word {one}, but halved {other}")?;
    }
    Ok(())
}

fn main(rt: HostRuntime) -> ExitCode {
    match run(&rt) {
        Ok(()) => ExitCode::SUCCESS,
        Err(fault) => {
            // Where nothing can be printed either, the status tells.
            let _ = rt.eprintln(&fault);
            ExitCode::FAILURE
        }
    }
}
