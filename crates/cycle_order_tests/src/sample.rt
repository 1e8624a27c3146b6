use ruby_base::{NoMemory, Seq};
use run_journal::{End, EntryRef, FireLists, FireNote, Journal, JournalWriter};
use std::alloc::Global;

/// What an entry of a journal is of: a controller's transition for a byte address, the end of a controller's wake-up, or a turn.
#[derive(Clone, Copy, PartialEq)]
pub enum Step {
    Fires(u32, u64),
    Ends(u32),
    Turns,
}

// Adds an entry of this step.
fn add(all: &mut JournalWriter, step: Step) -> Result<(), NoMemory> {
    all.reserve(1, 0, 0)?;
    match step {
        Step::Fires(controller, address) => {
            let note = FireNote {
                address,
                state: 0,
                event: 0,
                next: 1,
            };
            let lists = FireLists {
                consumed: &[],
                sent: &[],
                stalled: &[],
                woken: &[],
                recycled: &[],
            };
            all.push_fired(7, controller, note, lists);
        }
        Step::Ends(controller) => all.push_ended(7, controller, End::Idle),
        Step::Turns => all.push_turned(7, &[], None, None),
    }
    Ok(())
}

fn add_all(all: &mut JournalWriter, steps: &[Step]) -> Result<(), NoMemory> {
    for step in steps {
        add(all, *step)?;
    }
    Ok(())
}

/// The journal with an entry for each step.
pub fn journal_of(alloc: Global, steps: &[Step]) -> Result<Journal, NoMemory> {
    let mut all = JournalWriter::new(alloc);
    add_all(&mut all, steps)?;
    Ok(all.into_journal())
}

fn step_of(entry: EntryRef<'_>) -> Step {
    match entry {
        EntryRef::Fired {
            controller,
            note,
            ..
        } => Step::Fires(controller, note.address),
        EntryRef::Ended { controller, .. } => Step::Ends(controller),
        EntryRef::Turned { .. } => Step::Turns,
    }
}

/// The steps of a journal's entries.
pub fn steps_of(alloc: Global, j: &Journal) -> Result<Seq<Step>, NoMemory> {
    let mut steps = Seq::new(alloc);
    for place in 0..j.len() {
        steps.push(step_of(j.entry(place)))?;
    }
    Ok(steps)
}
