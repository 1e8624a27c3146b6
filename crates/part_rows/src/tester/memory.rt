// A memory that answers the requests of sequencers by a script.
use sequencer::{Ask, Block, Sequencer};

/// When a memory answers a request, and what.
#[derive(Clone, Copy)]
pub(crate) enum Script {
    /// After 15 cycles, and after 20 more for each seat before that of the request.
    Steady,
    /// After 300 cycles.
    Late,
    /// As `Steady`, but what a load reads has 1 added to byte 2.
    Wrong,
    Never,
}

impl Script {
    pub(crate) fn name(self) -> &'static str {
        match self {
            Script::Steady => "steady",
            Script::Late => "late",
            Script::Wrong => "wrong",
            Script::Never => "never",
        }
    }

    // Whether the request of a seat is answered in a cycle.
    fn answers(self, now: u64, seat: u32, issued: u64) -> bool {
        let waited = now.saturating_sub(issued);
        match self {
            Script::Steady | Script::Wrong => waited == 15 + 20 * u64::from(seat),
            Script::Late => waited == 300,
            Script::Never => false,
        }
    }

    // What a load reads of a line.
    fn read(self, block: &Block) -> Block {
        let mut read = *block;
        if let Script::Wrong = self {
            read.bytes[2] = read.bytes[2].wrapping_add(1);
        }
        read
    }
}

// Answers the request of a line, if its cycle has come.
fn answer(
    script: Script,
    now: u64,
    seat: u32,
    line: u64,
    block: &mut Block,
    sequencer: &mut Sequencer,
) {
    let Some(asked) = sequencer.request(line) else {
        return;
    };
    if !script.answers(now, seat, asked.issued) {
        return;
    }
    match asked.kind {
        Ask::Store => {
            if let Ok(written) = sequencer.write_back(line, *block) {
                *block = written;
            }
        }
        Ask::Load | Ask::Fetch => {
            let _answered = sequencer.read_back(line, &script.read(block));
        }
    }
}

/// Answers the requests of a seat whose cycle has come, from the lines of the memory.
pub(crate) fn answer_seat(
    script: Script,
    now: u64,
    seat: u32,
    lines: &mut [Block],
    sequencer: &mut Sequencer,
) {
    for (line, block) in lines.iter_mut().enumerate() {
        answer(script, now, seat, line as u64, block, sequencer);
    }
}
