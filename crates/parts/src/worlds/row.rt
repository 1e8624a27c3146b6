// The lines of the list of runs.
ghost use Rattle.std.specs.Prelude.{◌≤◌, IfSome};
ghost use Rattle.ctl_face.specs.Prelude.{last_cycle};

use ruby_world::RunLimits;

/// A world: the files of its protocol, its topology and its script, what bounds the run, whether its whole journal is printed, and the
/// file of what two workers do first, if they do anything.
#[derive(Clone, Copy)]
pub(crate) struct Row<'a> {
    pub(crate) name: &'a str,
    pub(crate) protocol: &'a str,
    pub(crate) topology: &'a str,
    pub(crate) script: &'a str,
    pub(crate) limits: RunLimits,
    pub(crate) whole: bool,
    pub(crate) steps: Option<&'a str>,
}

// The greatest bound on cycles.
const LAST_CYCLE: u64 = 1_000_000_000_000;

/// The row that a line says, if it says one.
pub(crate) fn row_of(line: &str) -> Option<Row<'_>>
    ensures { IfSome result (λ row. row.limits.cycles ≤ last_cycle) }
{
    let mut words = line.split_whitespace();
    let name = words.next()?;
    let protocol = words.next()?;
    let topology = words.next()?;
    let script = words.next()?;
    let seed = words.next()?.parse::<u64>().ok()?;
    let cycles = words.next()?.parse::<u64>().ok()?;
    let limit = words.next()?.parse::<u64>().ok()?;
    let shown = words.next()?;
    let steps = words.next();
    if cycles > LAST_CYCLE {
        return None;
    }
    Some(Row {
        name,
        protocol,
        topology,
        script,
        limits: RunLimits {
            seed,
            cycles,
            limit,
        },
        whole: shown == "journal",
        steps,
    })
}
