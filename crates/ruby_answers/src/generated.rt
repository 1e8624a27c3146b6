// The text of the generated protocol.
ghost use Rattle.std.specs.Prelude.{◌≡◌, ◌++◌, IfOk, OnOk};
ghost use Rattle.ruby_answers.specs.Prelude.{generated_name, generated_text, state_text, states_text, transition_text, transitions_text};

use ruby_base::{NoMemory, Text};
use std::alloc::Global;

// The most states.
const MOST: u64 = 256;

const HEAD: &[u8] = b"machine(MachineType:Node, \"ticker\")
  : MessageBuffer * mandatoryQueue;
{
  state_declaration(State, desc=\"states\", default=\"Node_State_S0\") {
";

const PARTS: &[u8] = b"  }
  enumeration(Event, desc=\"events\") { Go, desc=\"go\"; }
  in_port(mandatory_in, RubyRequest, mandatoryQueue) {
    if (mandatory_in.isReady(clockEdge())) {
      peek(mandatory_in, RubyRequest) {
        trigger(Event:Go, in_msg.LineAddress);
      }
    }
  }
  action(p_pop, \"p\", desc=\"pop\") { mandatory_in.dequeue(clockEdge()); }
";

/// The name that the generated protocol's file has in refusals.
pub fn name() -> &'static str
    ensures { result.now ≡ generated_name }
{
    "gen.sm"
}

fn add_state(alloc: Global, out: &mut Text, i: u64) -> Result<(), NoMemory>
    ensures { OnOk result (out.new ≡ out.old ++ state_text i) }
{
    let line = format!(in alloc; "    S{i}, AccessPermission:Invalid, desc=\"s\";\n")?;
    out.append(line.as_bytes())?;
    Ok(())
}

fn add_states(alloc: Global, out: &mut Text, count: u64) -> Result<(), NoMemory>
    ensures { OnOk result (out.new ≡ out.old ++ states_text count) }
{
    for i in 0..count {
        add_state(alloc, out, i)?;
    }
    Ok(())
}

fn add_transition(alloc: Global, out: &mut Text, i: u64, next: u64) -> Result<(), NoMemory>
    ensures { OnOk result (out.new ≡ out.old ++ transition_text i next) }
{
    let line = format!(in alloc; "  transition(S{i}, Go, S{next}) {{ p_pop; }}\n")?;
    out.append(line.as_bytes())?;
    Ok(())
}

fn add_transitions(alloc: Global, out: &mut Text, count: u64) -> Result<(), NoMemory>
    ensures { OnOk result (out.new ≡ out.old ++ transitions_text count) }
{
    for i in 0..count {
        add_transition(alloc, out, i, (i + 1) % count)?;
    }
    Ok(())
}

/// The text of the generated protocol with a state for each of n, and 256 at most.
pub fn text(alloc: Global, n: u64) -> Result<Text, NoMemory>
    ensures { IfOk result (λ text. text ≡ generated_text n) }
{
    let count = n.min(MOST);
    let mut out = Text::copied(alloc, HEAD)?;
    add_states(alloc, &mut out, count)?;
    out.append(PARTS)?;
    add_transitions(alloc, &mut out, count)?;
    out.append(b"}\n")?;
    Ok(out)
}
