// Runs the random tester over sequencers whose requests a memory answers by a script, and tells each request that it issues, up
// to 40 in a run, and what it finds: a line `CYCLE SEAT LINE KIND BYTE` for a request, below a line for each run. What is expected is
// what `bench/tester-draws` prints, a second tester, written in another language from the rules alone.
mod lines;
mod memory;
mod play;
mod seats;

use example_texts::RowText;
use memory::Script;
use play::{Run, add_run};
use ruby_base::NoMemory;

// Runs of 40 requests, at one, two and three seats.
fn add_draws(rows: &mut RowText, seed: u64) -> Result<(), NoMemory> {
    for seats in 1..4 {
        let run = Run {
            seed,
            seats,
            script: Script::Steady,
            checks: 1000,
            deadlock: 500,
        };
        add_run(rows, &run)?;
    }
    Ok(())
}

// A run that ends with a finding: its seed, how many seats it has, how the memory answers, and after how many cycles a request is
// a deadlock.
type Checked = (u64, u8, Script, u64);

const CHECKED: [Checked; 5] = [
    (1, 2, Script::Steady, 500),
    (2, 3, Script::Wrong, 500),
    (3, 2, Script::Never, 500),
    (1, 3, Script::Late, 300),
    (1, 3, Script::Late, 290),
];

fn add_checked(rows: &mut RowText, checked: &Checked) -> Result<(), NoMemory> {
    let (seed, seats, script, deadlock) = *checked;
    let run = Run {
        seed,
        seats,
        script,
        checks: 3,
        deadlock,
    };
    add_run(rows, &run)
}

fn add_runs(rows: &mut RowText) -> Result<(), NoMemory> {
    for seed in 1..4 {
        add_draws(rows, seed)?;
    }
    for checked in &CHECKED {
        add_checked(rows, checked)?;
    }
    Ok(())
}

/// Adds all runs.
pub(crate) fn add(rows: &mut RowText) {
    if add_runs(rows).is_err() {
        rows.lose();
    }
}
