// How bodies end.
ghost use Rattle.std.specs.Prelude.{◌≡◌, ◌++◌, ◌∷◌, [], OnOk};
ghost use Rattle.body_code.specs.Prelude.{handed_on};
ghost use Rattle.emit_statements.specs.StatementParts.{ending_of};

use action_code::Instr;
use ruby_base::{NoMemory, Seq};
use ruby_value::Kind;

/// What a body of a sort does where it returns.
#[derive(Clone, Copy)]
pub struct Ending {
    /// What it may answer.
    pub result: Option<Kind>,
    /// The body that is called where it returns without an answer, on what its transition is about, if there is one.
    pub next: Option<u32>,
}

fn two(code: &mut Seq<Instr>, first: Instr, second: Instr) -> Result<(), NoMemory>
    ensures { OnOk result (code.new ≡ code.old ++ first ∷ second ∷ []) }
{
    code.push(first)?;
    code.push(second)
}

fn four_loads(code: &mut Seq<Instr>) -> Result<(), NoMemory>
    ensures { OnOk result (code.new
        ≡ code.old ++ Instr.Load 0 ∷ Instr.Load 1 ∷ Instr.Load 2 ∷ Instr.Load 3 ∷ []) }
{
    two(code, Instr::Load(0), Instr::Load(1))?;
    two(code, Instr::Load(2), Instr::Load(3))
}

fn handed_on(code: &mut Seq<Instr>, next: u32) -> Result<(), NoMemory>
    ensures { OnOk result (code.new ≡ code.old ++ handed_on next) }
{
    four_loads(code)?;
    two(code, Instr::Call(next), Instr::Ret)
}

/// Ends a body without an answer.
pub fn close(code: &mut Seq<Instr>, ending: Ending) -> Result<(), NoMemory>
    ensures { OnOk result (code.new ≡ code.old ++ (ending_of ending).without) }
{
    match ending.next {
        Some(next) => handed_on(code, next),
        None => code.push(Instr::Ret),
    }
}
