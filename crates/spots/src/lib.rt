// What the letter rules ask of a place in a word: a byte or a vowel ahead of it or behind it, and where the word ends. Every test is total:
// a place below 0 or past the end is no match. Word and place stay two parameters: as one struct they made the encoder 5 to 6 % slower,
// 7 % on long words with no limit, whose bar is 3 times the Rust (docs/DECISIONS.md).
#![tactic(auto)]

ghost use Rattle.std.specs.Prelude.{◌≡◌, ℕ, ◌+◌, ◌-◌, ◌<◌, ◌≤◌, false, length, slice_index};
ghost use Rattle.byte.specs.Text.{up, upper};
ghost use Rattle.spots.specs.Spot.{byte_at, vowel_at, step_back, ends_after, is_long};

// The capital of the byte `k` ahead of `at` passes the test. Written as one condition, the two tests made the encoder take 6 to 10 %
// more instructions.
fn passes_ahead<F: Fn(u8) -> bool>(w: &[u8], at: usize, k: usize, test: F) -> bool
    requires { F.IsAlwaysCallable test }
    ensures there { at + k < length w.now → F.post test (up (slice_index w.now (at + k))) result }
    ensures past { length w.now ≤ at + k → result ≡ false }
{
    if w.len() <= at {
        return false;
    }
    if w.len() - at <= k {
        return false;
    }
    test(byte::capital(w[at + k]))
}

// The question of a place, asked `k` bytes back from `at`.
fn step_back<F: Fn(usize) -> bool>(at: usize, k: usize, question: F) -> bool
    requires { F.IsAlwaysCallable question }
    ensures within { k ≤ at → F.post question (at - k) result }
    ensures below { at < k → result ≡ false }
{
    if at < k {
        return false;
    }
    question(at - k)
}

// The byte `k` ahead of `at` is `b`.
pub fn char_ahead(w: &[u8], at: usize, k: usize, b: u8) -> bool
    ensures { result ≡ byte_at (upper w.now) (at + k) b }
{
    passes_ahead(w, at, k, |c| c == b)
}

// The byte `k` back from `at` is `b`.
pub fn char_behind(w: &[u8], at: usize, k: usize, b: u8) -> bool
    ensures { result ≡ step_back at k (λ (q : ℕ). byte_at (upper w.now) q b) }
{
    step_back(at, k, |q| char_ahead(w, q, 0, b))
}

// A vowel stands `k` bytes ahead of `at`.
pub fn vowel_ahead(w: &[u8], at: usize, k: usize) -> bool
    ensures { result ≡ vowel_at (upper w.now) (at + k) }
{
    passes_ahead(w, at, k, byte::is_vowel)
}

// A vowel stands `k` bytes back from `at`.
pub fn vowel_behind(w: &[u8], at: usize, k: usize) -> bool
    ensures { result ≡ step_back at k (λ (q : ℕ). vowel_at (upper w.now) q) }
{
    step_back(at, k, |q| vowel_ahead(w, q, 0))
}

// Exactly `k` bytes stand behind `at`.
pub fn from_end(w: &[u8], at: usize, k: usize) -> bool
    ensures { result ≡ ends_after (upper w.now) at k }
{
    if w.len() <= k {
        return false;
    }
    at == w.len() - k - 1
}

// The word has `n` bytes.
pub fn has_length(w: &[u8], n: usize) -> bool
    ensures { result ≡ is_long (upper w.now) n }
{
    w.len() == n
}
