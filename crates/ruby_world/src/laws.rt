// What a world's contracts say together. These functions do nothing: their contracts are the laws.
ghost use Rattle.std.specs.Prelude.{◌≡◌, [], ℕ, List, false};
ghost use Rattle.ctl_face.specs.Prelude.{Ctl};
ghost use Rattle.run_journal.specs.declared.event.Event.{Event};
ghost use Rattle.protocol_meaning.specs.Prelude.{meaning_of};
ghost use Rattle.protocol_runs.specs.Prelude.{AreOfOthers, HasOnlyGrown, IsAlone, IsMeaning, IsSetting, World, messages_since_take};
ghost use Rattle.ruby_world.specs.Prelude.{HasAddedAlone, HasAddedAll, Holds, IsWorldOf, WorldView, rules_in, setting_in};
ghost use Rattle.ruby_world.specs.declared.world.Held.{Held};
ghost use Rattle.sequencer.specs.Prelude.{Drive, Seat};

use sequencer::Driver;

/// What one worker adds to a run in which nothing has happened yet is a run by one worker.
pub fn runs_from_the_opening_are_alone<D>()
    ensures { (drive : D → List Seat → ℕ → Drive D) (old new : WorldView D)
        → HasAddedAlone drive old new → old.history ≡ [] → IsAlone (rules_in drive new) new.history }
{}

/// A controller stays held by its worker, who has the same of it, after events none of which is that worker's on that controller; what was
/// sent to it meanwhile waits beside it, and nothing else of it has changed.
pub fn held_controllers_stay<D: Driver>()
    ensures holds { (old new : WorldView D) (rest : List Event) (worker : ℕ) (h : Held) (w v : World Ctl D)
        → IsMeaning (meaning_of old.trees) → IsSetting D.least (setting_in old)
        → IsWorldOf D.drive old w → IsWorldOf D.drive new v
        → HasAddedAll old rest new → AreOfOthers worker h.controller rest
        → Holds D.drive old worker h → Holds D.drive new worker h }
    ensures grown { (old new : WorldView D) (rest : List Event) (worker : ℕ) (h : Held) (w v : World Ctl D)
        → IsWorldOf D.drive old w → IsWorldOf D.drive new v
        → HasAddedAll old rest new → AreOfOthers worker h.controller rest
        → Holds D.drive old worker h
        → HasOnlyGrown (rules_in D.drive old) h.controller w v
        (messages_since_take (rules_in D.drive old) h.controller old.history)
        (messages_since_take (rules_in D.drive old) h.controller new.history) }
{}
