// The files of what two workers do: a line `WORKER take CONTROLLER`, `WORKER scan`, `WORKER back` or `WORKER turn` for each step, where the
// workers are 0 and 1.
use crate::worlds::held::Act;
use ruby_base::NoMemory;
use std::alloc::Global;

/// A step: what the second worker does, or the first one.
#[derive(Clone, Copy)]
pub(crate) struct Step {
    pub(crate) is_second: bool,
    pub(crate) act: Act,
}

// The step that the words of a line say, if they say one.
fn step_of(line: &str) -> Option<Step> {
    let mut words = line.split_whitespace();
    let worker = words.next()?;
    let act = match words.next()? {
        "take" => Act::Take(words.next()?.parse::<u32>().ok()?),
        "scan" => Act::Scan,
        "back" => Act::Back,
        "turn" => Act::Turn,
        _ => return None,
    };
    let is_second = match worker {
        "0" => false,
        "1" => true,
        _ => return None,
    };
    Some(Step { is_second, act })
}

/// The steps of a file, in their order. A line that says none, as a comment, is passed over.
pub(crate) fn steps_of(alloc: Global, text: &str) -> Result<Vec<Step>, NoMemory> {
    let mut steps = Vec::new(alloc);
    for line in text.lines() {
        if let Some(step) = step_of(line) {
            steps.push(step)?;
        }
    }
    Ok(steps)
}
