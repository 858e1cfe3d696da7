// The part of a word between its blanks.
#![tactic(auto)]

ghost use Rattle.std.specs.Prelude.{◌≡◌, ◌≤◌, length, take, drop};
ghost use Rattle.trimming.specs.Trim.{blank, trim_start, trim_end, trimmed};

// Bytes 9 to 13 and 32.
fn is_blank(b: u8) -> bool
    ensures { result ≡ blank b }
{
    matches!(b, 9..=13 | 32)
}

// Where the trimmed word starts.
pub fn front(w: &[u8]) -> usize
    ensures within { result ≤ length w.now }
    ensures start { drop result w.now ≡ trim_start w.now }
{
    w.iter().position(|b| !is_blank(*b)).unwrap_or(w.len())
}

// Where it ends.
pub fn back(w: &[u8]) -> usize
    ensures within { result ≤ length w.now }
    ensures end { take result w.now ≡ trim_end w.now }
{
    w.iter()
        .rposition(|b| !is_blank(*b))
        .map_or(0, |last| last + 1)
}

// The word between its blanks, as a part of the lent one.
pub fn trimmed(word: &[u8]) -> &[u8]
    ensures { result.now ≡ trimmed word.now }
{
    let start = front(word);
    let len = back(&word[start..]);
    let end = start + len;
    &word[start..end]
}
