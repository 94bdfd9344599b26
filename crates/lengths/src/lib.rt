// The search lengths of the passes. A pass lays every tile as long as its search length, whatever that is; so they decide only
// how long a comparison takes.
#![tactic(auto)]

ghost use Rattle.std.specs.Prelude.{◌≡◌, ◌≤◌, ◌<◌, min, max, length, drop, replicate};
ghost use Rattle.symbol.specs.Word.{is_call};
ghost use Rattle.bounds.specs.Workspace.{state};
ghost use Rattle.lengths.specs.Lengths.{Marked, marks, different, worthwhile, short_length, climbed, longer_length, at_once, enough, first_length, longer, stretch, longest, left, part_of};

use bounds::{Job, View};
use tile::PatternAt;

// The windows of a pattern: its words, and the multiplier of the windows' hashes.
#[derive(Clone, Copy)]
struct Windows<'a> {
    words: &'a [u32],
    multiplier: u32,
    ghost short: { length words.now ≤ 2048 },
}

// How many are marked.
fn count_marked(marked: &[u32; 1024]) -> usize
    ensures { result ≡ marks marked.now 1024 }
{
    marked.iter().filter(|w| **w != 0).count()
}

impl<'a> Windows<'a> {
    // Marks the places of every step-th window of s words, of 64 at the most, from the last to the first.
    fn mark(&self, s: usize, step: usize, marked: &mut [u32; 1024])
        requires { (1 ≤ step) × (1 ≤ s) × (s ≤ length self.now.words.now) × (marked.old ≡ replicate 1024 0) }
        ensures { Marked self.now.words.now self.now.multiplier s step marked.new }
    {
        let count = ((self.words.len() - s) / step).min(63) + 1;
        for i in (0..count).rev() {
            let at = i * step;
            let h = window::hash_of(self.multiplier, &self.words[at..at + s]);
            marked[index::place_of(h)] = 1;
        }
    }

    // How many different places 64 windows of s words have, taken at equal distances, or as many as there are; 0 where no window fits.
    fn differing(&self, s: usize) -> usize
        requires { 1 ≤ s }
        ensures { result ≡ different self.now.words.now self.now.multiplier s }
    {
        if self.words.len() < s {
            return 0;
        }
        let mut marked = [0u32; 1024];
        let step = ((self.words.len() - s) / 64).max(1);
        self.mark(s, step, &mut marked);
        count_marked(&marked)
    }

    // Whether a pass at s words, before the one at the minimum, pays: s is at most 8, and 52 of 64 windows so long differ.
    fn pays(&self, s: usize) -> bool
        requires { 1 ≤ s }
        ensures { result ≡ worthwhile self.now.words.now self.now.multiplier s }
    {
        if 8 < s {
            return false;
        }
        52 <= self.differing(s)
    }

    // The first of s, twice and four times that at which a pass pays; 0 where there is none.
    fn short_length(&self, s: usize) -> usize
        requires { (1 ≤ s) × (s ≤ 4096) }
        ensures { result ≡ short_length self.now.words.now self.now.multiplier s 3 }
    {
        let mut length = s;
        for _ in 0..3usize {
            if self.pays(length) {
                return length;
            }
            length *= 2;
        }
        0
    }

    // A length whose windows differ, from s on: s, or twice, or four times that, as long as more of them differ than did before. Where
    // no more of them do it is s: longer windows are alike as well. Where more do each time, but never enough, it is 2 s.
    fn climb(&self, s: usize, few: usize) -> usize
        requires { (1 ≤ s) × (s ≤ 2048) }
        ensures { result ≡ climbed self.now.words.now self.now.multiplier s s few 3 }
    {
        let mut length = s;
        let mut before = few;
        for _ in 0..3usize {
            let now = self.differing(length);
            if 44 <= now {
                return length;
            }
            if now <= before {
                return s;
            }
            before = now;
            length *= 2;
        }
        s.max((length / 4).min(2048))
    }

    // A length to begin with where windows of the minimum length are too much alike: a few words more, if that is enough; else the
    // minimum for a short pattern, and for a longer one a length from the one given on, but from 20 to 64.
    fn longer_length(&self, minimum: usize, given: usize, few: usize) -> usize
        requires { (1 ≤ minimum) × (minimum ≤ 2048) }
        ensures { result ≡ longer_length self.now.words.now self.now.multiplier minimum given few }
    {
        let short = self.short_length(2 * minimum);
        if 0 < short {
            return short;
        }
        if self.words.len() <= 256 {
            return minimum;
        }
        self.climb(minimum.max(given.clamp(20, 64)), few)
    }
}

// Whether one pass, at the minimum, is made without a look at the windows: the pattern is short, or the multiplier even. Then
// longer windows are as much alike: their hashes tell only of their last words.
fn at_once(n: usize, minimum: usize, b: u32) -> bool
    ensures { result ≡ at_once n minimum b }
{
    (n <= 64) | ((n <= 256) & (2 < minimum)) | (b % 2 == 0)
}

// How many windows of the minimum length must differ for one pass in a pattern of n words: in a short one there are fewer of a kind.
fn enough_of(n: usize) -> usize
    ensures { result ≡ enough n }
{
    if n <= 256 {
        return 12;
    }
    44
}

// The search length of the first pass: the minimum, so that one pass is all, unless windows so short are too much alike; then from the
// given one on.
pub fn first_length(view: &View<'_>, multiplier: u32, given: usize) -> usize
    requires { (1 ≤ view.now.job.minimum) × (view.now.job.minimum ≤ given) × (given ≤ 2048) }
    ensures { result ≡ first_length (state view.now.job view.now.words.now).pattern multiplier view.now.job.minimum given }
{
    let n = view.job.n;
    let minimum = view.job.minimum;
    if at_once(n, minimum, multiplier) {
        return minimum;
    }
    let windows = Windows {
        words: &view.words[0..n],
        multiplier,
    };
    let few = windows.differing(minimum);
    if enough_of(n) <= few {
        return minimum;
    }
    windows.longer_length(minimum, given, few)
}

// One more than the stretch after a call, and 0 where the word is no call.
fn stretch_at(w: u32, after: usize) -> usize
    requires { after < 4096 }
    ensures { result ≡ longer (is_call w) after }
{
    if symbol::is_call(w) {
        return after + 1;
    }
    0
}

// The longest stretch of calls from one position on, where so many are the longest from another on, and none begins there.
fn longest_in(words: &[u32], from: usize, to: usize, after: usize) -> usize
    requires { (length words.now ≤ 2048) × (from ≤ to) × (to ≤ length words.now) × (stretch (drop to words.now) ≡ 0) × (after ≡ longest (drop to words.now)) }
    ensures { result ≡ longest (drop from words.now) }
{
    let mut most = after;
    let mut free = 0;
    for i in (from..to).rev() {
        free = stretch_at(words[i], free);
        most = most.max(free);
    }
    most
}

// The longest stretch of calls of the pattern. Only free words are looked at, stretch by stretch, from the last to the first.
fn longest_stretch(view: &View<'_>) -> usize
    ensures { result ≡ longest (state view.now.job view.now.words.now).pattern }
{
    let n = view.job.n;
    let mut most = 0;
    let mut part = view.rows_before(PatternAt(n));
    while 0 < part.to.0 {
        most = longest_in(&view.words[0..n], part.from.0, part.to.0, most);
        part = view.rows_before(part.from);
    }
    most
}

// The longest stretch of calls that is left of the pattern after a pass at s words; 0 where that was the last, at the minimum.
pub fn left_of(view: &View<'_>, s: usize) -> usize
    ensures { result ≡ left (state view.now.job view.now.words.now).pattern view.now.job.minimum s }
{
    if s <= view.job.minimum {
        return 0;
    }
    longest_stretch(view)
}

// A quarter of the search length where more than two thirds of n words are covered, else half of it.
fn part_of(s: usize, covered: usize, n: usize) -> usize
    requires { (covered ≤ 2048) × (n ≤ 2048) }
    ensures { result ≡ part_of s covered n }
{
    if 2 * n < 3 * covered {
        return s / 4;
    }
    s / 2
}

// The search length after s: such a part of it, or the longest stretch where that is shorter, and at least the minimum.
pub fn next_length(job: Job, s: usize, stretch: usize, covered: usize) -> usize
    requires { (covered ≤ 2048) × (job.n ≤ 2048) }
    ensures { result ≡ max job.minimum (min (part_of s covered job.n) stretch) }
{
    let part = part_of(s, covered, job.n);
    job.minimum.max(part.min(stretch))
}
