// A window seen from a place in a word: ahead of it, behind it, at the front and at the end of the word. Every test is total: a window below
// 0 or past the end is no match.
// Word and place stay two parameters, for speed: crates/spots.
// `ahead`, `behind` and `front` are a line each over the test that tells the text: each promises its own spot.
#![tactic(auto)]

ghost use Rattle.std.specs.Prelude.{◌≡◌, ℕ, ◌+◌};
ghost use Rattle.byte.specs.Text.{upper};
ghost use Rattle.windows.specs.Window.{sees, text_at, texts};
ghost use Rattle.spots.specs.Spot.{step_back, tell_back, from_rear};

// The text's number of the window `k` bytes ahead of `at`.
pub fn text_ahead(w: &[u8], at: usize, k: usize, width: usize, list: &[u8]) -> usize
    ensures { result ≡ text_at (upper w.now) (at + k) width (texts width list.now) }
{
    if w.len() < at {
        return 0;
    }
    if w.len() - at < k {
        return 0;
    }
    windows::text_at(w, at + k, width, list)
}

// The text's number of the window `k` bytes back from `at`.
pub fn text_behind(w: &[u8], at: usize, k: usize, width: usize, list: &[u8]) -> usize
    ensures { result ≡ tell_back at k (λ (q : ℕ). text_at (upper w.now) q width (texts width list.now)) }
{
    if at < k {
        return 0;
    }
    windows::text_at(w, at - k, width, list)
}

// The text's number of the window at the front of the word.
pub fn text_front(w: &[u8], width: usize, list: &[u8]) -> usize
    ensures { result ≡ text_at (upper w.now) 0 width (texts width list.now) }
{
    windows::text_at(w, 0, width, list)
}

// The window `k` bytes ahead of `at` is one of the texts.
pub fn ahead(w: &[u8], at: usize, k: usize, width: usize, list: &[u8]) -> bool
    ensures { result ≡ sees (upper w.now) (at + k) width (texts width list.now) }
{
    text_ahead(w, at, k, width, list) != 0
}

// The window `k` bytes back from `at` is.
pub fn behind(w: &[u8], at: usize, k: usize, width: usize, list: &[u8]) -> bool
    ensures { result ≡ step_back at k (λ (q : ℕ). sees (upper w.now) q width (texts width list.now)) }
{
    text_behind(w, at, k, width, list) != 0
}

// The window at the front of the word is.
pub fn front(w: &[u8], width: usize, list: &[u8]) -> bool
    ensures { result ≡ sees (upper w.now) 0 width (texts width list.now) }
{
    text_front(w, width, list) != 0
}

// The window at the end of the word is.
pub fn rear(w: &[u8], width: usize, list: &[u8]) -> bool
    ensures { result ≡ from_rear (upper w.now) width (λ (q : ℕ). sees (upper w.now) q width (texts width list.now)) }
{
    behind(w, w.len(), width, width, list)
}
