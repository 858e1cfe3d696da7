// A call that names its edition by a number.
#![tactic(auto)]

ghost use Rattle.editions.specs.Editions.{EncodedIn};

use answers::Reply;
use encoder::Encoder;
use terms::{Edition, Limit};

// Encodes under the edition of this number. One that is not known is refused before all else.
pub fn encode_in(
    edition: u64,
    limit: Limit,
    word: &[u8],
    primary: &mut [u8],
    alternate: &mut [u8],
) -> Reply
    ensures { EncodedIn edition limit word.now primary.old alternate.old result primary.new alternate.new }
{
    let edition = Edition::try_from(edition)?;
    let coded = Encoder::in_edition(edition, limit).encode(word, primary, alternate)?;
    Ok(coded)
}
