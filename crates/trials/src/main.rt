// Plays random histories on the first model and on the second, and compares everything that they answer.
#![tactic(auto)]

mod answer;
mod call;
mod channels;
mod counted;
mod counts;
mod first;
mod history;
mod maker;
mod play;
mod played;
mod random;
mod records;
mod rig;
mod second;
mod shorten;
mod state;
mod stop;

use crate::counts::Counts;
use crate::play::Trial;
use crate::shorten::Found;
use crate::stop::Stop;
use anyhow::anyhow;
use std::env;
use std::process::ExitCode;
use thiserror::Error;

// The histories of a run without arguments.
const HISTORIES: u64 = 6_000;

// How many histories there are to a line of progress.
const PROGRESS: u64 = 20_000;

// What the arguments ask for.
#[derive(Clone, Copy, PartialEq, Eq, Debug)]
enum Request {
    Help,
    Trials { histories: u64, seed: u64 },
}

#[derive(Clone, Copy, PartialEq, Eq, Debug, Error)]
#[error("the arguments are two numbers at most; --help says more")]
struct BadArguments;

fn read_arguments(rt: &HostRuntime) -> anyhow::Result<Request> {
    let mut histories = HISTORIES;
    let mut seed = 0;
    let mut words = env::args(rt)?;
    // a program that was started under that name gives the help too
    if words.next().is_some_and(|name| name.as_str() == "--help") {
        return Ok(Request::Help);
    }
    for (place, word) in words.enumerate() {
        if word.as_str() == "--help" {
            return Ok(Request::Help);
        }
        let number = word.as_str().parse::<u64>().map_err(|_| BadArguments)?;
        match place {
            0 if number > 0 => histories = number,
            1 => seed = number,
            _ => return Err(BadArguments.into()),
        }
    }
    Ok(Request::Trials { histories, seed })
}

const HELP: &str = "trials [HISTORIES [SEED]]
Plays random histories on the two models of the chip and the board, and compares everything.
HISTORIES: how many are played (6000). SEED: that of the first one (0).
It fails if the models differ, or if something that it counts was never seen.";

// Prints a difference and the shortest history that still has one.
fn tell(rt: &HostRuntime, found: &mut Found) -> anyhow::Result<()> {
    eprintln!(rt; "{found}")?;
    found.shorten(rt.alloc())?;
    for (number, call) in found.history.calls.iter().enumerate() {
        eprintln!(rt; "  {number}: {call}")?;
    }
    eprintln!(rt; "{found}")?;
    Ok(())
}

// Plays the history of a seed.
fn one_trial(rt: &HostRuntime, seed: u64, counts: &mut Counts) -> anyhow::Result<()> {
    let heap = rt.alloc();
    let history = maker::history(heap, seed)?;
    let trial = Trial {
        heap,
        calls: &history.calls,
        counts,
    };
    let played = trial.play(history.device);
    if let Err(Stop::Differs(difference)) = played {
        let mut found = Found {
            history,
            difference,
        };
        tell(rt, &mut found)?;
    }
    Ok(played?)
}

fn trials(rt: &HostRuntime, histories: u64, seed: u64) -> anyhow::Result<()> {
    let mut counts = Counts::new();
    for number in 0..histories {
        one_trial(rt, seed.wrapping_add(number), &mut counts)?;
        if number > 0 && number % PROGRESS == 0 {
            eprintln!(rt; "{number} histories are played")?;
        }
    }
    let table = counts.table();
    if let Some(count) = table.iter().find(|count| count.times == 0) {
        eprintln!(rt; "never seen: {}", count.name)?;
        return Err(anyhow!("something that is counted was never seen"));
    }
    for count in &table {
        println!(rt; "{:<38} {:>10}", count.name, count.times)?;
    }
    println!(rt;
        "{histories} histories, {} calls of a chip, {} calls of a board: no difference",
        counts.chip_calls, counts.board_calls
    )?;
    Ok(())
}

fn run(rt: &HostRuntime) -> anyhow::Result<()> {
    match read_arguments(rt)? {
        Request::Help => {
            println!(rt; "{HELP}")?;
            Ok(())
        }
        Request::Trials { histories, seed } => trials(rt, histories, seed),
    }
}

fn main(rt: HostRuntime) -> ExitCode {
    match run(&rt) {
        Ok(()) => ExitCode::SUCCESS,
        Err(e) => {
            let _ = eprintln!(rt; "trials: {e}");
            ExitCode::FAILURE
        }
    }
}
