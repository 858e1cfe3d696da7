// The encoder: refuses what it must, trims the word, and lends the inner part and both buffers to the walk.
#![tactic(auto)]

ghost use Rattle.std.specs.Prelude.{◌≡◌, Some};
ghost use Rattle.terms.specs.declared.Edition.TheVariants.{E1};
ghost use Rattle.encoder.specs.Encode.{encoder_of, default_limit, Encoded};

use answers::{Answer, Coded, Refusal};
use terms::{Edition, Limit, WORD_LIMIT};

#[derive(Clone, Copy, Debug, PartialEq, Eq)]
pub struct Encoder {
    pub limit: Limit,
    pub edition: Edition,
}

// Edition 1 under the default limit.
impl Default for Encoder {
    ghost is_default = { λ encoder. encoder ≡ encoder_of E1 (Some default_limit) };

    fn default() -> Self {
        Self::in_edition(Edition::E1, Some(Self::DEFAULT_LIMIT))
    }
}

impl Encoder {
    pub const DEFAULT_LIMIT: usize = 4;

    pub fn in_edition(edition: Edition, limit: Limit) -> Self
        ensures { result ≡ encoder_of edition limit }
    {
        Self { limit, edition }
    }

    // Edition 1, as the Rust.
    pub fn new(limit: Limit) -> Self
        ensures { result ≡ encoder_of Edition.E1 limit }
    {
        Self::in_edition(Edition::E1, limit)
    }

    // The checks run in document 01's order, on the word as it is lent; only then is it trimmed and walked.
    pub fn encode(self, word: &[u8], primary: &mut [u8], alternate: &mut [u8]) -> Answer
        ensures { Encoded self.edition self.limit word.now primary.old alternate.old result primary.new alternate.new }
    {
        if WORD_LIMIT < word.len() {
            return Err(Refusal::TooLong);
        }
        if !ascii::is_ascii(word) {
            return Err(Refusal::NotAscii(ascii::first_high(word)));
        }
        let inner = trimming::trimmed(word);
        let need = needs::need_of(self.limit, inner.len());
        if primary.len() < need {
            return Err(Refusal::PrimaryShort);
        }
        if alternate.len() < need {
            return Err(Refusal::AlternateShort);
        }
        let cap = needs::cap_of(self.limit, inner.len());
        let tally = walk::walk(inner, self.edition, cap, primary, alternate);
        // The tally's three numbers are the answer's; neither type knows of the other, so that what only looks at an answer rests on no walk.
        Ok(Coded {
            primary: tally.primary,
            alternate: tally.alternate,
            visits: tally.visits,
        })
    }
}
