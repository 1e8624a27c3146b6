// What holds of every stream. These functions do nothing: their contracts are the laws.

ghost use Rattle.std.specs.Prelude.{◌≡◌, ◌+◌, ◌^◌};
ghost use Rattle.rand_pcg.specs.Lcg.{advance, increment_of, started};
ghost use Rattle.rand_pcg.specs.Pcg.{multiplier_64, pcg32};
ghost use Rattle.pcg_words.specs.Prelude.{word};

/// A jump of `n` steps from the stream's beginning leads to word `n`, as `n` draws do.
#[tactic(auto, using(crate::proofs::Period::streams))]
pub fn jumps_as_it_draws(seed: u64, stream: u64, n: u64)
    ensures { word seed stream n ≡ (pcg32 (advance 64 multiplier_64 n (started 64 multiplier_64 seed (increment_of 64 stream)))).0 }
{}

/// A stream begins again after 2^64 words, so a count of drawn words may run on from the greatest `u64` to 0.
#[tactic(auto, using(crate::proofs::Period::streams))]
pub fn begins_again(seed: u64, stream: u64, n: u64)
    ensures { word seed stream (n + 2 ^ 64) ≡ word seed stream n }
{}
