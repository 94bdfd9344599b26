// The free words of a sequence as a chain: each has an entry that says where the next one stands and where the one before.
#![tactic(auto)]

ghost use Rattle.std.specs.Prelude.{MatchOption, ℕ, ◌≡◌, ◌+◌, ◌-◌, ◌/◌, ◌≤◌, ◌<◌, length, get_or, set};
ghost use Rattle.chain.specs.First.{First, Last};
ghost use Rattle.chain.specs.Chain.{Free, gap_before, next_of, before_of, entry, Ranged, Chained};
ghost use Rattle.chain.specs.Unlinked.{pointed_on, pointed_back, led, mended, led_out, unlinked};
ghost use Rattle.chain.specs.Stretches.{Zeros, ZeroTail, ZerosFrom, Joined, StretchBefore};

// A stretch of free words: where it begins, and one past its last word.
#[derive(Clone, Copy)]
pub struct Stretch<P> {
    pub from: P,
    pub to: P,
}

// The free words on either side of some words: one past the one before, and where the next one stands. That they lie within a chain, and
// that no entry of it leads outside (`Ranged`), is asked by the functions that write one: it is of what is lent to them.
#[derive(Clone, Copy)]
struct Sides {
    before: usize,
    next: usize,
    ghost ordered: { before ≤ next },
}

// The words of a sequence, and the chain of the free ones among them.
#[derive(Clone, Copy)]
pub struct FreeWords<'a> {
    pub words: &'a [u32],
    pub chain: &'a [u32],
    ghost chained: { Chained words.now chain.now },
}

// Where the next free word after one stands, as its entry says; the end of the sequence where there is none.
pub fn next_of(chain: &[u32], at: usize) -> usize
    requires { (at < length chain.now) × (at < 2048) }
    ensures { result ≡ next_of chain.now at }
{
    at + 1 + (chain[at] % 65536) as usize
}

// One past where the free word before one stands, as its entry says; 0 where there is none.
pub fn before_of(chain: &[u32], at: usize) -> usize
    requires { (at < length chain.now) × (gap_before chain.now at ≤ at) }
    ensures { result ≡ before_of chain.now at }
{
    at - (chain[at] / 65536) as usize
}

// Sets an entry: it leads to the free words on either side.
fn set_entry(chain: &mut [u32], at: usize, sides: Sides)
    requires { (at < length chain.old) × (sides.before ≤ at) × (at < sides.next) × (sides.next ≤ 2048) }
    ensures { chain.new ≡ set chain.old at (entry at sides.before sides.next) }
{
    chain[at] = (sides.next - at - 1) as u32 + 65536 * ((at - sides.before) as u32);
}

// Points the free word before on to the next one, where there is one before.
fn point_on(chain: &mut [u32], sides: Sides)
    requires { Ranged chain.old × (sides.before ≤ length chain.old) × (sides.next ≤ 2048) }
    ensures { chain.new ≡ pointed_on sides.before sides.next chain.old }
{
    if sides.before == 0 {
        return;
    }
    let at = sides.before - 1;
    let beside = Sides {
        before: before_of(chain, at),
        next: sides.next,
    };
    set_entry(chain, at, beside);
}

// Points the next free word back to the one before, where there is a next one.
fn point_back(chain: &mut [u32], sides: Sides)
    requires { Ranged chain.old }
    ensures { chain.new ≡ pointed_back sides.before sides.next chain.old }
{
    if chain.len() <= sides.next {
        return;
    }
    let beside = Sides {
        before: sides.before,
        next: next_of(chain, sides.next),
    };
    set_entry(chain, sides.next, beside);
}

// Has the first word of each block of 32 between two positions lead to the free words on either side, so that the chain can be entered there.
fn lead_blocks(chain: &mut [u32], at: usize, last: usize, sides: Sides)
    requires { (last < length chain.old) × (sides.before ≤ at) × (at ≤ last) × (last < sides.next) × (sides.next ≤ 2048) }
    ensures { chain.new ≡ led sides.before sides.next (at / 32) (last / 32 - at / 32) chain.old }
{
    for block in at / 32..last / 32 {
        set_entry(chain, 32 * (block + 1), sides);
    }
}

// Has the free words on either side point to one another.
fn mend(chain: &mut [u32], sides: Sides)
    requires { Ranged chain.old × (sides.next ≤ length chain.old) }
    ensures { chain.new ≡ mended sides.before sides.next chain.old }
{
    point_on(chain, sides);
    point_back(chain, sides);
}

// Has the words from one position up to another, which are taken out, lead to the free words on either side: the first, the last, and
// those of blocks between.
fn lead(chain: &mut [u32], at: usize, last: usize, sides: Sides)
    requires { (last < length chain.old) × (sides.before ≤ at) × (at ≤ last) × (last < sides.next) × (sides.next ≤ 2048) }
    ensures { chain.new ≡ led_out at last sides.before sides.next chain.old }
{
    set_entry(chain, at, sides);
    set_entry(chain, last, sides);
    lead_blocks(chain, at, last, sides);
}

// Takes len words from a position on out of the chain.
pub fn unlink(chain: &mut [u32], at: usize, len: usize)
    requires { Ranged chain.old × (1 ≤ len) × (at + len ≤ length chain.old) }
    ensures { chain.new ≡ unlinked at len chain.old }
{
    let last = at + len - 1;
    let before = before_of(chain, at);
    let next = next_of(chain, last);
    let sides = Sides { before, next };
    mend(chain, sides);
    lead(chain, at, last, sides);
}

// Whether the last 16 words are all 0. Every word is looked at, so that the compiler can take several at once.
fn block_zero(words: &[u32]) -> bool
    requires { 16 ≤ length words.now }
    ensures { Zeros words.now result }
{
    let from = words.len() - 16;
    words[from..].iter().fold(true, |all, w| all & (*w == 0))
}

// From where on all words are 0, in whole blocks from the end. (As a chain over `rchunks_exact` it was tried: the search does not find
// that `block_zero` may be called on each block, nor the result.)
fn zero_blocks(words: &[u32]) -> usize
    ensures { ZeroTail words.now result }
{
    let mut n = words.len();
    while 16 <= n && block_zero(&words[0..n]) {
        n -= 16;
    }
    n
}

// The last word that is not 0.
fn last_other(words: &[u32]) -> Option<usize>
    ensures { MatchOption result ((k : ℕ) → k < length words.now → get_or words.now k 0 ≡ 0) (λ i. (i < length words.now) × Free words.now i × ((k : ℕ) → i < k → k < length words.now → get_or words.now k 0 ≡ 0)) }
{
    words.iter().rposition(|w| *w != 0)
}

// From where on all words are 0.
fn zeros_from(words: &[u32]) -> usize
    ensures { ZerosFrom words.now result }
{
    let n = zero_blocks(words);
    match last_other(&words[..n]) {
        Some(i) => i + 1,
        None => 0,
    }
}

impl<'a> FreeWords<'a> {
    // The first position of the chain from one on; the end of the sequence where there is none. The walk goes where the entries lead, so
    // it is no count.
    pub fn free_from(&self, from: usize) -> usize
        requires { from ≤ length self.now.words.now }
        ensures { First (Free self.now.words.now) from (length self.now.words.now) result }
    {
        let mut at = from;
        while at < self.words.len() && self.words[at] == 0 {
            at = next_of(self.chain, at);
        }
        at
    }

    // One past the last position of the chain before one; 0 where there is none.
    fn free_before(&self, to: usize) -> usize
        requires { to ≤ length self.now.words.now }
        ensures { Last (Free self.now.words.now) to result }
    {
        let mut end = to;
        while 0 < end && self.words[end - 1] == 0 {
            end = before_of(self.chain, end - 1);
        }
        end
    }

    // Where the stretch begins that ends with a free word: the words before it are joined to it as long as each has its neighbours for its
    // next and its previous one, which is an entry of 0.
    fn joined_from(&self, last: usize) -> usize
        requires { last < length self.now.chain.now }
        ensures { Joined self.now.chain.now last result }
    {
        if before_of(self.chain, last) != last {
            return last;
        }
        let at = zeros_from(&self.chain[0..last]);
        if at == 0 {
            return 0;
        }
        at - 1
    }

    // The last stretch of free words before a position; an empty one at 0 where there is none.
    pub fn stretch_before(&self, end: usize) -> Stretch<usize>
        requires { end ≤ length self.now.words.now }
        ensures { StretchBefore self.now.words.now end result.from result.to }
    {
        let to = self.free_before(end);
        if to == 0 {
            return Stretch { from: 0, to };
        }
        Stretch {
            from: self.joined_from(to - 1),
            to,
        }
    }
}
