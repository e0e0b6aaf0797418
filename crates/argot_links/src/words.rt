// Runs of words as rows of bits: one bit, a run joined to another, the next bit that is 1.
ghost use Rattle.std.specs.Prelude.{◌≡◌, ℕ, ◌+◌, ◌*◌, ◌<◌, ◌≤◌, ◌^◌, ◌⊎◌, length, slice_index, bit_or, IsTrue, IsNone, IfSome, false, ◌==◌};
ghost use Rattle.std.specs.Int.{bit_at};
ghost use Rattle.argot_links.specs.Grid.{run_bit};

/// Whether bit k of the word is 1.
pub fn test_bit(word: u64, k: u32) -> bool
    requires { k < 64 }
    ensures { result ≡ (bit_at word k == 1) }
{
    (word >> k) & 1 == 1
}

/// The word with bit k.
pub fn with_bit(word: u64, k: u32) -> u64
    requires { k < 64 }
    ensures same { bit_at result k ≡ 1 }
    ensures others { (i : ℕ) → (i ≡ k → ⊥) → bit_at result i ≡ bit_at word i }
{
    word | 1 << k
}

/// Writes the bits of the n words from `source` on into the n words from `target` on. Whether a word changed.
pub fn or_words(words: &mut [u64], source: usize, target: usize, n: usize) -> bool
    requires source { source + n ≤ length words.old }
    requires target { target + n ≤ length words.old }
    requires apart { (source ≡ target) ⊎ ((source + n ≤ target) ⊎ (target + n ≤ source)) }
    ensures inside { (k : ℕ) → k < n → slice_index words.new (target + k) ≡ bit_or (slice_index words.old (target + k)) (slice_index words.old (source + k)) }
    ensures outside { (j : ℕ) → (j < target) ⊎ (target + n ≤ j) → slice_index words.new j ≡ slice_index words.old j }
    ensures changed { IsTrue result → (k : ℕ) × (k < n) × (slice_index words.new (target + k) ≡ slice_index words.old (target + k) → ⊥) }
    ensures same { result ≡ false → words.new ≡ words.old }
{
    let mut changed = false;
    for k in 0..n {
        let before = words[target + k];
        let word = before | words[source + k];
        if word != before {
            words[target + k] = word;
            changed = true;
        }
    }
    changed
}

/// Makes every word 0.
pub fn clear_words(words: &mut [u64])
    ensures { (j : ℕ) → slice_index words.new j ≡ 0 }
{
    for k in 0..words.len() {
        words[k] = 0;
    }
}

/// The first bit of the word from `from` on that is 1.
fn first_in_word(word: u64, from: u32) -> Option<u32>
    requires { from < 64 }
    ensures found { IfSome result (λ k. (from ≤ k) × (k < 64) × (bit_at word k ≡ 1)) }
    ensures first { IfSome result (λ k. (i : ℕ) → from ≤ i → i < k → bit_at word i ≡ 0) }
    ensures none { IsNone result → (i : ℕ) → from ≤ i → bit_at word i ≡ 0 }
{
    let rest = word >> from;
    if rest == 0 {
        return None;
    }
    Some(from + rest.trailing_zeros())
}

/// The first bit from `from` on that is 1, in the n words from `start` on. Words that are 0 cost one test.
pub fn first_in_run(words: &[u64], start: usize, n: usize, from: usize) -> Option<usize>
    requires run { start + n ≤ length words.now }
    requires small { n < 2 ^ 32 }
    ensures found { IfSome result (λ b. (from ≤ b) × (b < 64 * n) × (run_bit words.now start b ≡ 1)) }
    ensures first { IfSome result (λ b. (i : ℕ) → from ≤ i → i < b → run_bit words.now start i ≡ 0) }
    ensures none { IsNone result → (i : ℕ) → from ≤ i → i < 64 * n → run_bit words.now start i ≡ 0 }
{
    let first = from / 64;
    if first >= n {
        return None;
    }
    if let Some(k) = first_in_word(words[start + first], (from % 64) as u32) {
        return Some(64 * first + k as usize);
    }
    for j in first + 1..n {
        if let Some(k) = first_in_word(words[start + j], 0) {
            return Some(64 * j + k as usize);
        }
    }
    None
}
