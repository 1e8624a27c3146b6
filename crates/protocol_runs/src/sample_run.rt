// The premises can be met.
ghost use Rattle.std.specs.Prelude.{ℕ, List};
ghost use Rattle.run_journal.specs.declared.entry.Entry.{Entry};
ghost use Rattle.protocol_runs.specs.Prelude.{World, IsSetting, IsMeaning, IsSampleRun, sample, sample_setting};
ghost use Rattle.ctl_face.specs.Prelude.{Ctl};

/// A protocol whose scan is made of acts, a setting of two controllers, and the plain driver, which needs one seat, meet the
/// premises; and they have a run in which controller 0 takes the driver's request and controller 1 the message that it sends then.
pub fn a_sample_meets_the_premises()
    ensures meaning { IsMeaning sample }
    ensures setting { IsSetting (λ (d : ℕ). 1) sample_setting }
    ensures run { (w : World Ctl ℕ) × (journal : List Entry) × IsSampleRun w journal }
{}
