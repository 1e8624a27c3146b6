ghost use Rattle.std.specs.Prelude.{ℕ, List, Option};
ghost use Rattle.ruby_symbols.specs.declared.machine.Next.{Next};
ghost use Rattle.ruby_symbols.specs.declared.machine.PortSymbol.{PortSymbol};
ghost use Rattle.ruby_symbols.specs.declared.machine.TransitionSymbol.{TransitionSymbol};
ghost use Rattle.ruby_value.specs.declared.value.Value.{Value};
ghost use Rattle.body_meaning.specs.declared.frame.About.{About};
ghost use Rattle.body_meaning.specs.declared.thing.Trigger.{Trigger};
ghost use Rattle.body_meaning.specs.Prelude.{Reading, action_done, calls_of, each, fired, lacks_room, next_state, port_done, read_state, send_count};
ghost use Rattle.slot_laws.specs.Prelude.{SendsAtMost};

/// What the actions of a transition send on a buffer, or to its network, is at most what is counted in them before they are done; and
/// so it is with the whole transition, since functions, in ports, reads of states and the tests of what is free send nothing.
pub fn sends_are_counted()
    ensures actions { (s : Reading) (buffer : ℕ) (a : About) (actions : List ℕ)
        → SendsAtMost s.machine buffer (send_count s actions buffer)
        (each (action_done s) a actions) }
    ensures fired { (s : Reading) (buffer : ℕ) (t : Trigger) (state next : ℕ)
        (row : TransitionSymbol)
        → SendsAtMost s.machine buffer (send_count s row.actions buffer)
        (fired s t state next row) }
    ensures ports { (s : Reading) (buffer : ℕ) (p : PortSymbol)
        → SendsAtMost s.machine buffer 0 (port_done s p) }
    ensures calls { (s : Reading) (buffer k : ℕ) (arguments : List Value)
        → SendsAtMost s.machine buffer 0 (calls_of s k arguments) }
    ensures states { (s : Reading) (buffer : ℕ) (a : About)
        → SendsAtMost s.machine buffer 0 (read_state s a) }
    ensures room { (s : Reading) (buffer : ℕ) (actions : List ℕ)
        → SendsAtMost s.machine buffer 0 (lacks_room s actions) }
    ensures next { (s : Reading) (buffer address state : ℕ) (next : Option Next)
        → SendsAtMost s.machine buffer 0 (next_state s address state next) }
{}
