// A board whose channels talk to each other: channel 1 sends a short message, channel 2 replies, and each thing that happens is a line.
#![tactic(auto)]

use crate::bench::Bench;
use crate::story::STORY;
use std::process::ExitCode;

mod bench;
mod names;
mod story;
mod tally;

fn run(rt: &HostRuntime) -> anyhow::Result<()> {
    println!(rt;
        "Each line begins with the cycle. Line A, from TxD1 to RxD2, holds 128 levels, and line B, from TxD2 to RxD1, is a wire."
    )?;
    println!(rt;
        "At CR $0E a tick comes every 6 cycles and a bit lasts 16 ticks, so that a frame of 10 bits takes 960 cycles."
    )?;
    let mut bench = Bench::new(rt)?;
    for part in STORY {
        bench.play(rt, part)?;
    }
    bench.summary(rt)?;
    Ok(())
}

fn main(rt: HostRuntime) -> ExitCode {
    match run(&rt) {
        Ok(()) => ExitCode::SUCCESS,
        Err(e) => {
            let _ = eprintln!(rt; "loopback: {e}");
            ExitCode::FAILURE
        }
    }
}
