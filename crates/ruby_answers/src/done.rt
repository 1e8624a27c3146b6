// What a call may answer, with its status, what it ends with, and the program after it.
ghost use Rattle.std.specs.Prelude.{◌≡◌};
ghost use Rattle.std.specs.Process.{exit_status};
ghost use Rattle.ruby_answers.specs.Answer.{done_of, out_of_memory, status_of, verdict_status};

use protocol_meaning::RunRecord;
use ruby_base::{Seq, Text};
use run_journal::Verdict;
use slicc_front::Refused;
use slicc_plan::{Counts, Plan, Row};
use std::process::ExitCode;

// The status where the sink met a fault.
const NOT_WRITTEN: u8 = 7;

// The status where memory ran out.
const NO_MEMORY: u8 = 8;

/// What a call of the program ends with.
#[derive(Drop)]
pub struct Done {
    /// The status that the program ends with: that of the answer, or 7 where its text wasn't written whole, or 8 where memory
    /// ran out.
    pub status: u8,
    /// The record, where a run was made: with status 0 or 1, or with 7, where its text was cut off.
    pub kept: Option<RunRecord>,
}

impl Done {
    /// The end of a call that has answered so, by whether the whole text was written.
    pub fn of(answer: Answer, whole: bool) -> Done
        ensures { result ≡ done_of answer whole }
    {
        let status = if whole { answer.status() } else { NOT_WRITTEN };
        let kept = match answer {
            Answer::Ran(record) => Some(record),
            Answer::Generated(record) => Some(record),
            Answer::Accepted(_counts) => None,
            Answer::Tabled(_plan, _rows) => None,
            Answer::Usage => None,
            Answer::Refused(_refused) => None,
            Answer::Unfit { .. } => None,
            Answer::Absent(_name) => None,
            Answer::TooLarge(_name) => None,
            Answer::ReadFault(_name) => None,
        };
        Done { status, kept }
    }

    /// The end of a call that had no memory.
    pub fn out_of_memory() -> Done
        ensures { result ≡ out_of_memory }
    {
        Done {
            status: NO_MEMORY,
            kept: None,
        }
    }
}

/// What the program ends with after a call: the call's status.
pub fn exit_code(done: &Done) -> ExitCode
    ensures { exit_status result ≡ done.now.status }
{
    ExitCode::from(done.status)
}

/// What a call of the program answers. Each answer has one text and one status; the statuses are this project's own.
#[derive(Drop)]
pub enum Answer {
    /// A run of a protocol was made: its record. The status is 0 where its checks have passed or it ended quietly, and else 1.
    Ran(RunRecord),
    /// A run of a generated protocol was made. The status is as for `Ran`.
    Generated(RunRecord),
    /// The protocol was checked and keeps all rules: how much there is in it. The status is 0.
    Accepted(Counts),
    /// The rows of the protocol's tables, machine by machine. The status is 0.
    Tabled(Plan, Seq<Seq<Row>>),
    /// The words ask for nothing that the program does; the status is 2.
    Usage,
    /// The protocol is refused; the status is 3.
    Refused(Refused),
    /// The topology breaks a rule; the status is 4.
    Unfit {
        /// The least rule that is broken, T1 to T8, by its number.
        rule: u8,
        /// The line of the topology's file, from 1; 0 for a plain run, which has no such file.
        line: u32,
    },
    /// The library has no file of this name; the status is 6.
    Absent(Text),
    /// The file of this name has more than 1,048,576 bytes; the status is 9.
    TooLarge(Text),
    /// The library met a fault as the file of this name was read; the status is 5.
    ReadFault(Text),
}

fn verdict_status(verdict: Verdict) -> u8
    ensures { result ≡ verdict_status verdict }
{
    match verdict {
        Verdict::Passed { .. } | Verdict::Quiet { .. } => 0,
        _ => 1,
    }
}

impl Answer {
    /// The status that the program ends with once the text was written.
    pub fn status(&self) -> u8
        ensures { result ≡ status_of self.now }
    {
        match self {
            Answer::Ran(record) | Answer::Generated(record) => verdict_status(record.verdict),
            Answer::Accepted(_) | Answer::Tabled(..) => 0,
            Answer::Usage => 2,
            Answer::Refused(_) => 3,
            Answer::Unfit { .. } => 4,
            Answer::ReadFault(_) => 5,
            Answer::Absent(_) => 6,
            Answer::TooLarge(_) => 9,
        }
    }
}
