// The words of a controller's stream from where its last send has left them, so that the next send need not go there anew.
ghost use Rattle.std.specs.Prelude.{◌≡◌};
ghost use Rattle.ctl_mail.specs.Words.{words_at};

use pcg_words::Words;

/// The words of a stream, and of which seed and stream they are when how many are drawn.
#[derive(Drop)]
pub(crate) struct KeptWords {
    seed: u64,
    stream: u64,
    drawn: u64,
    words: Words,
    ghost are: { words ≡ words_at seed stream drawn },
}

impl KeptWords {
    /// These words, of a seed and a stream, when so many are drawn.
    pub(crate) fn new(words: Words, seed: u64, stream: u64, drawn: u64) -> KeptWords
        requires { words ≡ words_at seed stream drawn }
    {
        KeptWords {
            seed,
            stream,
            drawn,
            words,
        }
    }
}

/// The words of a stream when so many are drawn: the kept ones where they are those, and else others.
pub(crate) fn words_at(kept: Option<KeptWords>, seed: u64, stream: u64, drawn: u64) -> Words
    ensures { result ≡ words_at seed stream drawn }
{
    let Some(kept) = kept else {
        return Words::at(seed, stream, drawn);
    };
    if kept.seed != seed || kept.stream != stream || kept.drawn != drawn {
        return Words::at(seed, stream, drawn);
    }
    let KeptWords {
        seed: _,
        stream: _,
        drawn: _,
        words,
    } = kept;
    words
}
