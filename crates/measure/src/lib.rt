// How long a run is, and where two words stand side by side. Words are looked at in blocks: a block is tested as a whole, and nothing
// in it branches on a word, so that the compiler tests several words at once. The words are those of a workspace, which are replaced
// already, so two of them match where they are equal calls.
#![tactic(auto)]

ghost use Rattle.std.specs.Prelude.{◌≡◌, ◌≤◌, max, leb, length};
ghost use Rattle.tiling.specs.Run.{leading, equal_run};
ghost use Rattle.measure.specs.Block.{block, whole_blocks, counted};
ghost use Rattle.measure.specs.Before.{before};
ghost use Rattle.measure.specs.Tested.{Tested};

// How many words a block has.
const BLOCK: usize = 8;

// Whether the first words of two parts pass a test pair by pair, as many as a block has. Every pair is looked at, so that the compiler
// can test several at once. That the test may be asked of any pair is a clause of each function that takes it: a closure carries none.
fn block_passes<F: Fn(u32, u32) -> bool + Copy>(words: &[u32], others: &[u32], passes: F) -> bool
    requires room { (block ≤ length words.now) × (block ≤ length others.now) }
    requires callable { F.IsAlwaysCallable passes }
    ensures { Tested (F.post passes) (λ test. result ≡ leb block (leading test words.now others.now)) }
{
    words[..BLOCK]
        .iter()
        .zip(&others[..BLOCK])
        .fold(true, |all, (w, o)| all & passes(*w, *o))
}

// How many pairs pass a test one after another from the start of two parts, in whole blocks. (As a chain over `chunks_exact` it was
// tried: the search does not find that `block_passes` may be called on each pair of blocks, nor the count.)
fn blocks_passed<F: Fn(u32, u32) -> bool + Copy>(words: &[u32], others: &[u32], passes: F) -> usize
    requires { F.IsAlwaysCallable passes }
    ensures room { (result ≤ length words.now) × (result ≤ length others.now) }
    ensures passed { Tested (F.post passes) (λ test. result ≡ whole_blocks (leading test words.now others.now)) }
{
    let mut n = 0;
    while BLOCK <= words.len() - n
        && BLOCK <= others.len() - n
        && block_passes(&words[n..], &others[n..], passes)
    {
        n += BLOCK;
    }
    n
}

// How many pairs pass a test one after another from the start of two parts, of which some are known to.
fn passed_from<F: Fn(u32, u32) -> bool + Copy>(
    words: &[u32],
    others: &[u32],
    known: usize,
    passes: F,
) -> usize
    requires room { (known ≤ length words.now) × (known ≤ length others.now) }
    requires callable { F.IsAlwaysCallable passes }
    ensures { Tested (F.post passes) (λ test. known ≤ leading test words.now others.now → result ≡ leading test words.now others.now) }
{
    let end = words.len().min(others.len());
    let more = words[known..end]
        .iter()
        .zip(&others[known..end])
        .take_while(|(w, o)| passes(**w, **o))
        .count();
    known + more
}

// The run, of which one longer than best is looked for. The words of its first block are looked at one by one only where they decide: else
// a run that ends there counts as none.
pub fn measured_run(pattern: &[u32], text: &[u32], best: usize) -> usize
    ensures { result ≡ counted best (equal_run pattern.now text.now) }
{
    let matches = |p, t| symbol::equal_calls(p, t);
    let whole = blocks_passed(pattern, text, matches);
    if (whole < BLOCK) & (BLOCK - 1 <= best) {
        return 0;
    }
    passed_from(pattern, text, whole, matches)
}

// The run where it is longer than best, else best. Where the words at offset best do not match, it is no longer, and nothing more is
// looked at.
pub fn longer_run(pattern: &[u32], text: &[u32], best: usize) -> usize
    ensures { result ≡ max best (equal_run pattern.now text.now) }
{
    if pattern.len() <= best {
        return best;
    }
    if text.len() <= best {
        return best;
    }
    if !symbol::equal_calls(pattern[best], text[best]) {
        return best;
    }
    measured_run(pattern, text, best).max(best)
}

// How many positions come before the first at which the one part has a and the other b; where none does, as many as both have.
pub fn positions_before(words: &[u32], others: &[u32], a: u32, b: u32) -> usize
    ensures { result ≡ before a b words.now others.now }
{
    let passes = |w, o| (w != a) | (o != b);
    let whole = blocks_passed(words, others, passes);
    passed_from(words, others, whole, passes)
}
