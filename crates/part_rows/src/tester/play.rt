// A run of the tester.
ghost use Rattle.std.specs.Prelude.{◌≤◌, length};

use crate::tester::lines::{add_finding, add_head};
use crate::tester::memory::{Script, answer_seat};
use crate::tester::seats::turn;
use example_texts::RowText;
use random_tester::Tester;
use ruby_base::NoMemory;
use sequencer::{Block, Sequencer};

/// What a run is over: the tester's seed, how many seats there are, how a memory answers, how many checks have to pass and after
/// how many cycles a request is a deadlock.
#[derive(Clone, Copy)]
pub(crate) struct Run {
    pub(crate) seed: u64,
    pub(crate) seats: u8,
    pub(crate) script: Script,
    pub(crate) checks: u64,
    pub(crate) deadlock: u64,
}

const LINES: u64 = 4;

// A run ends with so many requests, if nothing is found before, and at the latest in this cycle.
const REQUESTS: usize = 40;

const LAST_CYCLE: u64 = 10_000;

// Answers what is due at each sequencer.
fn answer_all(script: Script, now: u64, memory: &mut [Block], sequencers: &mut [Sequencer])
    requires { length sequencers.old ≤ 3 }
{
    for (seat, sequencer) in sequencers.iter_mut().enumerate() {
        answer_seat(script, now, seat as u32, memory, sequencer);
    }
}

// The cycles of a run.
fn add_cycles(
    rows: &mut RowText,
    script: Script,
    tester: &mut Tester,
    sequencers: &mut [Sequencer],
) -> Result<(), NoMemory>
    requires some { 1 ≤ length sequencers.old }
    requires few { length sequencers.old ≤ 3 }
{
    let mut memory = [Block { bytes: [0; 64] }; LINES as usize];
    let mut issued: usize = 0;
    for now in 0..LAST_CYCLE {
        answer_all(script, now, &mut memory, sequencers);
        let turned = turn(rows, now, tester, sequencers)?;
        if let Some(finding) = turned.end.finding {
            add_finding(rows, now, &finding);
            return Ok(());
        }
        issued = issued.saturating_add(turned.issued);
        if issued >= REQUESTS {
            return Ok(());
        }
    }
    Ok(())
}

/// Makes a run and adds its lines.
pub(crate) fn add_run(rows: &mut RowText, run: &Run) -> Result<(), NoMemory> {
    add_head(rows, run);
    let alloc = rows.alloc();
    let stream = 2 * u64::from(run.seats);
    let mut tester = Tester::new(alloc, run.seed, stream, LINES, run.checks, run.deadlock)?;
    let mut sequencers = [
        Sequencer::new(alloc),
        Sequencer::new(alloc),
        Sequencer::new(alloc),
    ];
    let seats = usize::from(run.seats.clamp(1, 3));
    add_cycles(rows, run.script, &mut tester, &mut sequencers[..seats])
}
