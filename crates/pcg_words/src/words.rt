ghost use Rattle.std.specs.Prelude.{◌≡◌, ◌≤◌};
ghost use Rattle.pcg_words.specs.Below.{below};
ghost use Rattle.pcg_words.specs.Position.{next_position};
ghost use Rattle.pcg_words.specs.Word.{word};

use rand_core::utils::NextWord;
use rand_pcg::Lcg64Xsh32;
use std::marker::Model;

/// The random words of an actor, from one of them on. A contract sees the seed, the stream and the count of words
/// that are drawn; `word` says which word lies there. The generator's state follows from these three, and it is
/// kept beside them so that a draw costs one step.
///
/// That an actor draws from the stream of its own number is this project's rule. No call takes memory.
#[derive(Drop)]
pub struct Words {
    seed: u64,
    stream: u64,
    drawn: u64,
    generator: Lcg64Xsh32,
}

impl Model for Words {
    ghost use Rattle.std.specs.Prelude.{◌≡◌};
    ghost use Rattle.pcg_words.specs.Position.{Position};
    ghost use Rattle.pcg_words.specs.Word.{generator_after};

    ghost Value = { Position };

    ghost view = { λ w. record { seed = w.seed; stream = w.stream; drawn = w.drawn } };

    ghost invariant = { λ w. w.generator ≡ generator_after w.seed w.stream w.drawn };
}

impl Words {
    /// The words of a stream from its beginning, none drawn yet. The highest bit of `stream` is dropped, so two
    /// streams with the same lower 63 bits have the same words.
    #[tactic(auto, using(crate::proofs::Period::streams))]
    pub fn new(seed: u64, stream: u64) -> Words
        ensures { result ≡ record { seed = seed; stream = stream; drawn = 0 } }
    {
        Words {
            seed,
            stream,
            drawn: 0,
            generator: Lcg64Xsh32::new(seed, stream),
        }
    }

    /// The words of a stream from word `drawn` on, counted from 0. It jumps there: at most 64 steps, however many
    /// words lie before.
    #[tactic(auto, using(crate::proofs::Period::streams))]
    pub fn at(seed: u64, stream: u64, drawn: u64) -> Words
        ensures { result ≡ record { seed = seed; stream = stream; drawn = drawn } }
    {
        let mut generator = Lcg64Xsh32::new(seed, stream);
        generator.advance(drawn);
        Words {
            seed,
            stream,
            drawn,
            generator,
        }
    }

    /// The next word. The count runs on from the greatest `u64` to 0, where the stream begins again.
    #[tactic(auto, using(crate::proofs::Period::streams), unfolding(crate::specs::Word::word))]
    pub fn next(&mut self) -> u32
        ensures value { result ≡ word self.old.seed self.old.stream self.old.drawn }
        ensures moves_on { self.new ≡ next_position self.old }
    {
        self.drawn = self.drawn.wrapping_add(1);
        self.generator.next_word()
    }

    /// The next word modulo `n`. It draws one word, whatever `n` is.
    pub fn below(&mut self, n: u32) -> u32
        requires { 1 ≤ n }
        ensures value { result ≡ below self.old.seed self.old.stream self.old.drawn n }
        ensures moves_on { self.new ≡ next_position self.old }
    {
        self.next() % n
    }
}
