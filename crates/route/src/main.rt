// Follows the escape channels of a network from one node to another, as `route ring 8 6 1`: a line a hop, with its node,
// port, class, rank and next node, and then `arrived` and the number of hops.
#![tactic(auto)]

use std::env;
use std::io::{BufWriter, Write};
use std::process::ExitCode;
use traceroute::{parse, traced};

// Reads the command, traces its route and prints it.
fn run(rt: &HostRuntime) -> anyhow::Result<()> {
    let heap = rt.alloc();
    let words = env::args(rt)?.skip(1).collect::<Vec<String>>(heap)?;
    let command = parse(heap, &words)?;
    let steps = traced(heap, &command)?;
    let mut out = BufWriter::new(heap, rt.stdout())?;
    for step in &steps {
        writeln!(out, "{step}")?;
    }
    let hops = steps.len();
    writeln!(out, "arrived {hops}")?;
    out.flush()?;
    Ok(())
}

// A command that cannot be followed is told why in a sentence, and the program ends with status 1.
fn main(rt: HostRuntime) -> ExitCode {
    match run(&rt) {
        Ok(()) => ExitCode::SUCCESS,
        Err(error) => {
            let _ = eprintln!(rt; "route: {error}");
            ExitCode::FAILURE
        }
    }
}
