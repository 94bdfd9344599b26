// The hash of each window of a sequence, by the recurrence of 001.
#![tactic(auto)]

ghost use Rattle.std.specs.Prelude.{◌≡◌, ℕ, ◌+◌, ◌-◌, ◌*◌, ◌%◌, ◌^◌, ◌<◌, ◌≤◌, List, [], ◌∷◌, ◌++◌, length, take, drop};
ghost use Rattle.refusal.specs.Number.{numbered, counted_as};
ghost use Rattle.buffer.specs.Buffer.{onto};
ghost use Rattle.window.specs.Hash.{words_hash, hash};
ghost use Rattle.window.specs.HashList.{windows, hashes_by, hashes, hash_refusal, hash_answer, hash_buffer};

use refusal::Refusal;

// The hash of a window with one more word: what is there times b, and the word, each step wrapping at 2^32.
fn with_word(b: u32, h: u32, word: u32) -> u32
    ensures { result ≡ (h * b + word) % 2 ^ 32 }
{
    h.wrapping_mul(b).wrapping_add(word)
}

// The e-th power of b, modulo 2^32; 1 for e = 0, whatever b is. `wrapping_pow` takes an exponent of 32 bits, and e may be larger.
pub fn power(b: u32, e: usize) -> u32
    ensures { result ≡ b ^ e % 2 ^ 32 }
{
    let mut p = 1u32;
    for _ in 0..e {
        p = p.wrapping_mul(b);
    }
    p
}

// The hash of a whole window of words as they stand.
pub fn hash_of(b: u32, window: &[u32]) -> u32
    ensures { result ≡ words_hash b window.now }
{
    window.iter().fold(0, |h, w| with_word(b, h, *w))
}

// The hash of a whole window, whose words are replaced.
fn replaced_hash(b: u32, window: &[u32]) -> u32
    ensures { result ≡ hash b window.now }
{
    window
        .iter()
        .map(|w| symbol::replaced(*w))
        .fold(0, |h, w| with_word(b, h, w))
}

// The hash of the window one position on: the outgoing word times the power is taken out, the rest is multiplied by b, and
// the incoming word is added, each step wrapping at 2^32.
fn roll(h: u32, outgoing: u32, power: u32, b: u32, incoming: u32) -> u32
    ensures { (ws : List ℕ) → h ≡ words_hash b (outgoing ∷ ws) → power ≡ b ^ length ws % 2 ^ 32 → result ≡ words_hash b (ws ++ (incoming ∷ [])) }
{
    let rest = h.wrapping_sub(outgoing.wrapping_mul(power));
    with_word(b, rest, incoming)
}

// Fills the start of buffer with the hash at each position where a window of s words fits.
fn fill_hashes(words: &[u32], b: u32, s: usize, buffer: &mut [u32])
    requires { (1 ≤ s) × (windows s (length words.now) ≤ length buffer.old) }
    ensures { buffer.new ≡ onto (hashes b s words.now) buffer.old }
{
    if words.len() < s {
        return;
    }
    let p = power(b, s - 1);
    let mut h = replaced_hash(b, &words[..s]);
    let last = words.len() - s;
    for i in 0..last {
        buffer[i] = h;
        let outgoing = symbol::replaced(words[i]);
        let incoming = symbol::replaced(words[i + s]);
        h = roll(h, outgoing, p, b, incoming);
    }
    buffer[last] = h;
}

// Fills a part of the workspace from `distance` words on with the hash at each of its first `count` words where a window of s words
// fits. The words are hashed as they stand: in a workspace they are replaced already. Each hash waits for the one before it, so two are
// rolled side by side, from the first window and from the middle one. The weight is the power of b that the first word of a window has.
pub fn hash_windows(part: &mut [u32], count: usize, distance: usize, weight: u32, b: u32, s: usize)
    requires { (1 ≤ s) × (s ≤ count) × (count ≤ distance) × (distance ≤ 4096) × (distance + count ≤ length part.old) × (weight ≡ b ^ (s - 1) % 2 ^ 32) }
    ensures { part.new ≡ take distance part.old ++ onto (hashes_by (words_hash b) s (take count part.old)) (drop distance part.old) }
{
    let half = (count + 1 - s) / 2;
    let last = count - s - half;
    let mut near = hash_of(b, &part[..s]);
    let mut far = hash_of(b, &part[half..half + s]);
    for i in 0..last {
        let next_near = roll(near, part[i], weight, b, part[i + s]);
        let next_far = roll(far, part[half + i], weight, b, part[half + i + s]);
        part[distance + i] = near;
        part[distance + (half + i)] = far;
        near = next_near;
        far = next_far;
    }
    part[distance + last] = near;
    part[distance + (half + last)] = far;
}

// At how many positions of n words a window of s words fits.
fn window_count(s: usize, n: usize) -> usize
    requires { n < 2 ^ 63 }
    ensures { result ≡ windows s n }
{
    (n + 1).saturating_sub(s)
}

// Refuses a list of hashes that cannot be given.
fn check_hash(words: &[u32], window: u32, room: usize) -> Result<(), Refusal>
    ensures { numbered result ≡ hash_refusal words.now window room }
{
    if 2048 < words.len() {
        return Err(Refusal::TooLong);
    }
    if !symbol::all_sound(words) {
        return Err(Refusal::Unsound);
    }
    if window == 0 {
        return Err(Refusal::SearchLength);
    }
    if 2048 < window {
        return Err(Refusal::SearchLength);
    }
    if room < window_count(window as usize, words.len()) {
        return Err(Refusal::Room);
    }
    Ok(())
}

// Fills the start of buffer with the hash at each position where a window of the given length fits, for multiplier b and of
// replaced words, and answers how many there are. Refused: TooLong for more than 2,048 words, Unsound for an unsound word,
// SearchLength for a length outside 1 to 2,048, Room where buffer is too short; buffer is then as it was.
pub fn hash_list(words: &[u32], b: u32, window: u32, buffer: &mut [u32]) -> Result<u32, Refusal>
    ensures value { counted_as result ≡ hash_answer words.now window (length buffer.old) }
    ensures buffer_after { buffer.new ≡ hash_buffer words.now b window buffer.old }
{
    check_hash(words, window, buffer.len())?;
    let s = window as usize;
    fill_hashes(words, b, s, buffer);
    Ok(window_count(s, words.len()) as u32)
}
