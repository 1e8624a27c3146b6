// The run of a row.
ghost use Rattle.std.specs.Prelude.{◌≡◌, ◌≤◌, IfOk, IfSome, length};
ghost use Rattle.ctl_face.specs.Prelude.{last_cycle};
ghost use Rattle.controller_rows.specs.Prelude.{opening};
ghost use Rattle.protocol_meaning.specs.Prelude.{FitsPlan};

use crate::worlds::row::Row;
use crate::worlds::steps::{Step, steps_of};
use crate::worlds::workers::run_steps;
use controller_rows::{Script, plan_of, requests_of};
use protocol_meaning::topologies_fit;
use ruby_base::{NoMemory, Text};
use ruby_options::{Command, Options, Order};
use ruby_outside::{Got, Library, Sink};
use ruby_topology::{TopoFault, Topology, read_topology};
use ruby_world::{RunLimits, RunRecord, run_whole};
use scan_rows::write_entries;
use slicc_interpreter::Interpreted;
use slicc_plan::{Plan, copy_plan};
use std::alloc::Global;
use trace_print::{RunText, write_rest};

// The most bytes that the file of a topology may have, and that of a script.
const FILE_LIMIT: u64 = 1_048_576;

const SCRIPT_LIMIT: u64 = 16_777_216;

// The options of a run with these bounds.
fn options_of(alloc: Global, limits: &RunLimits) -> Options
    ensures { result.cycles ≡ limits.now.cycles }
{
    Options {
        command: Command::Run,
        protocol: Text::new(alloc),
        topology: Text::new(alloc),
        count: 0,
        seed: limits.seed,
        checks: 1,
        lines: 1,
        cycles: limits.cycles,
        workers: 0,
        trace: true,
        order: Order::Journal,
        deadlock: 1,
        limit: limits.limit,
    }
}

// The bytes of a file, if it is there and has no more than so many.
fn bytes_of<L: Library>(library: &mut L, file: &str, limit: u64) -> Option<Text>
    ensures { IfSome result (λ bytes. length bytes ≤ limit) }
{
    match library.read(file, limit) {
        Got::Bytes(bytes) if bytes.len() as u64 <= limit => Some(bytes),
        _ => None,
    }
}

// The topology that a file says.
fn topology_of(alloc: Global, bytes: &[u8], plan: &Plan) -> Result<Topology, TopoFault>
    requires { length bytes.now ≤ 1048576 }
    ensures { IfOk result (λ topology. FitsPlan plan.now topology) }
{
    topologies_fit();
    let _trees = plan.trees();
    read_topology(alloc, bytes, plan)
}

// The driver of the script in a file's bytes.
fn script_of(alloc: Global, bytes: &[u8]) -> Result<Script, NoMemory>
    ensures { IfOk result (λ script. opening script ≡ script) }
{
    let text = str::from_utf8(bytes).unwrap_or("");
    Ok(Script::new(requests_of(alloc, text)?))
}

fn write_record<S: Sink>(alloc: Global, sink: &mut S, record: &RunRecord, whole: bool) -> bool {
    let names = &record.topology.names;
    if whole && !write_entries(alloc, sink, &record.plan, names, &record.journal) {
        return false;
    }
    let rest = RunText {
        plan: &record.plan,
        names,
        finals: &record.finals,
        account: &record.account,
        verdict: &record.verdict,
    };
    write_rest(sink, &rest)
}

// The run of a plan over a topology, which begins with these steps of two workers.
fn run_of(
    alloc: Global,
    limits: &RunLimits,
    plan: Plan,
    topology: Topology,
    script: Script,
    steps: &[Step],
) -> Result<Option<RunRecord>, NoMemory>
    requires cycles { limits.now.cycles ≤ last_cycle }
    requires fits { FitsPlan plan topology }
    requires opening { opening script ≡ script }
{
    let protocol = Interpreted::new(copy_plan(&plan)?);
    let options = options_of(alloc, limits);
    if steps.is_empty() {
        let record = run_whole(alloc, &protocol, plan, topology, options, script)?;
        return Ok(Some(record));
    }
    run_steps(alloc, &protocol, plan, topology, options, script, steps)
}

// The run of a plan over the topology that a file's bytes say, if they say one.
fn run_over(
    alloc: Global,
    limits: &RunLimits,
    plan: Plan,
    bytes: &[u8],
    script: Script,
    steps: &[Step],
) -> Option<RunRecord>
    requires cycles { limits.now.cycles ≤ last_cycle }
    requires length { length bytes.now ≤ 1048576 }
    requires opening { opening script ≡ script }
{
    match topology_of(alloc, bytes, &plan) {
        Ok(topology) => run_of(alloc, limits, plan, topology, script, steps).unwrap_or(None),
        Err(_) => {
            drop(plan);
            drop(script);
            None
        }
    }
}

// The run of a protocol over these bytes of a topology's file, by these of a script's.
fn run_by<L: Library>(
    alloc: Global,
    library: &mut L,
    row: &Row<'_>,
    topology: &[u8],
    script: &[u8],
    steps: &[Step],
) -> Option<RunRecord>
    requires cycles { row.now.limits.cycles ≤ last_cycle }
    requires length { length topology.now ≤ 1048576 }
{
    let Ok(script) = script_of(alloc, script) else {
        return None;
    };
    match plan_of(alloc, library, row.protocol) {
        Ok(Some(plan)) => run_over(alloc, &row.limits, plan, topology, script, steps),
        Ok(None) | Err(NoMemory) => {
            drop(script);
            None
        }
    }
}

// The steps of a row, if their file can be read. Without a file there is none.
fn steps_in<L: Library>(alloc: Global, library: &mut L, row: &Row<'_>) -> Option<Vec<Step>> {
    let Some(file) = row.steps else {
        return Some(Vec::new(alloc));
    };
    let bytes = bytes_of(library, file, SCRIPT_LIMIT)?;
    let text = str::from_utf8(bytes.as_slice()).unwrap_or("");
    steps_of(alloc, text).ok()
}

// The run of a row, if its files can be read and aren't refused.
fn record_of<L: Library>(alloc: Global, library: &mut L, row: &Row<'_>) -> Option<RunRecord>
    requires { row.now.limits.cycles ≤ last_cycle }
{
    let topology = bytes_of(library, row.topology, FILE_LIMIT)?;
    let script = bytes_of(library, row.script, SCRIPT_LIMIT)?;
    let steps = steps_in(alloc, library, row)?;
    run_by(
        alloc,
        library,
        row,
        topology.as_slice(),
        script.as_slice(),
        steps.as_slice(),
    )
}

/// Writes the run of a row, and answers whether it was written whole.
pub(crate) fn write_run<L: Library, S: Sink>(
    alloc: Global,
    library: &mut L,
    sink: &mut S,
    row: &Row<'_>,
) -> bool
    requires { row.now.limits.cycles ≤ last_cycle }
{
    match record_of(alloc, library, row) {
        Some(record) => {
            let is_written = write_record(alloc, sink, &record, row.whole);
            drop(record);
            is_written
        }
        None => false,
    }
}
