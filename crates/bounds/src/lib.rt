// The workspace of a comparison under way: the chains of free words, from which rows and windows are taken; the bounds of rows, and the
// greatest of each block of 32 rows.
#![tactic(auto)]

ghost use Rattle.std.specs.Prelude.{◌≡◌, ◌+◌, ◌-◌, ◌*◌, ◌/◌, ◌≤◌, ◌<◌, min, max, length, take, drop, get_or, set};
ghost use Rattle.chain.specs.First.{First, Passing};
ghost use Rattle.chain.specs.Chain.{next_of, Ranged};
ghost use Rattle.chain.specs.Stretches.{StretchBefore};
ghost use Rattle.bounds.specs.Workspace.{Space, state, bounds_from, bound, pattern_chain, marked, unlinked_in, laid};
ghost use Rattle.bounds.specs.Greatest.{Greatest};
ghost use Rattle.bounds.specs.Blocks.{block_count, BlockSet, Refreshed, rows_end, in_level, Renewed, Covering};

use chain::{FreeWords, Stretch};
use tile::{PatternAt, TextAt, Tile};

// What a comparison works on: the lengths of pattern and text, the minimum, and whether the first sequence is the pattern.
#[derive(Clone, Copy)]
pub struct Job {
    pub n: usize,
    pub m: usize,
    pub minimum: usize,
    pub straight: bool,
}

// A workspace to read: what the comparison works on, and the words, whose parts are in place. C lends the words as one slice. What writes
// takes the slice and the job: a struct that held the `&mut` would have to say in each contract that it is still the same reference.
#[derive(Clone, Copy)]
pub struct View<'a> {
    pub job: Job,
    pub words: &'a [u32],
    ghost space: { Space job words.now },
}

// The rows whose bound is a level: a workspace to read, what stands for each block of its rows, and the level.
#[derive(Clone, Copy)]
pub struct LevelRows<'a, 'b> {
    pub view: View<'a>,
    pub blocks: &'b [u32; 64],
    pub level: usize,
    ghost covering: { Covering view.job view.words.now blocks.now },
    ghost some: { 1 ≤ level },
}

// The greatest of some words; 0 where there are none.
fn greatest(words: &[u32]) -> u32
    ensures { Greatest (λ i. get_or words.now i 0) (length words.now) result }
{
    let mut most = 0u32;
    for word in words {
        most = most.max(*word);
    }
    most
}

// The greatest of the 32 words of a whole block: the compiler knows how many they are, and takes several at once.
fn greatest_of_block(block: &[u32; 32]) -> u32
    ensures { Greatest (λ i. get_or block.now i 0) (length block.now) result }
{
    let mut most = 0u32;
    for word in block {
        most = most.max(*word);
    }
    most
}

// How many blocks of 32 rows there are.
fn block_count(job: Job) -> usize
    requires { job.n ≤ 2048 }
    ensures { result ≡ block_count job }
{
    job.n.div_ceil(32)
}

// The greatest of all blocks.
pub fn top(blocks: &[u32; 64], job: Job) -> usize
    requires { job.n ≤ 2048 }
    ensures { Greatest (λ b. get_or blocks.now b 0) (block_count job) result }
{
    let count = block_count(job);
    greatest(&blocks[..count]) as usize
}

// The next block from one on, of so many, that is not below the level; their number where there is none.
fn next_block(blocks: &[u32; 64], level: usize, from: usize, count: usize) -> usize
    requires { (from ≤ count) × (count ≤ 64) }
    ensures { First (λ b. level ≤ get_or blocks.now b 0) from count result }
{
    for b in from..count {
        if level <= blocks[b] as usize {
            return b;
        }
    }
    count
}

impl<'a> View<'a> {
    // The bound of a row.
    pub fn bound_of(&self, p: PatternAt) -> usize
        requires { p.0 < self.now.job.n }
        ensures { result ≡ bound self.now.job self.now.words.now p.0 }
    {
        let at = 2 * (self.job.n + self.job.m) + p.0;
        self.words[at] as usize
    }

    // The greatest bound of the rows from `from` up to `to`.
    fn greatest_bound(&self, from: usize, to: usize) -> u32
        requires { (from ≤ to) × (to ≤ self.now.job.n) }
        ensures { Greatest (λ i. bound self.now.job self.now.words.now (from + i)) (to - from) result }
    {
        let start = 2 * (self.job.n + self.job.m);
        let rows = &self.words[start + from..start + to];
        match rows.as_array::<32>() {
            Some(block) => greatest_of_block(block),
            None => greatest(rows),
        }
    }

    // Sets the greatest bound of a block of 32 rows anew.
    fn set_block(&self, blocks: &mut [u32; 64], b: usize)
        requires { 32 * b < self.now.job.n }
        ensures { BlockSet self.now.job self.now.words.now b blocks.old blocks.new }
    {
        let from = 32 * b;
        let to = (from + 32).min(self.job.n);
        let most = self.greatest_bound(from, to);
        blocks[b] = most;
    }

    // Sets the greatest bounds of the blocks from one up to another anew.
    fn set_blocks(&self, blocks: &mut [u32; 64], from: usize, to: usize)
        requires { to ≤ block_count self.now.job }
        ensures { Refreshed self.now.job self.now.words.now from to blocks.old blocks.new }
    {
        for b in from..to {
            self.set_block(blocks, b);
        }
    }

    // Sets the greatest bounds of all blocks anew.
    pub fn refresh(&self, blocks: &mut [u32; 64])
        ensures { Refreshed self.now.job self.now.words.now 0 (block_count self.now.job) blocks.old blocks.new }
    {
        self.set_blocks(blocks, 0, block_count(self.job));
    }

    // Whether row q stands in the block of row p and has the level for its bound.
    fn in_level(&self, level: usize, p: usize, q: usize) -> bool
        ensures { result ≡ in_level self.now.job self.now.words.now level p q }
    {
        if self.job.n <= q {
            return false;
        }
        if q / 32 != p / 32 {
            return false;
        }
        self.bound_of(PatternAt(q)) == level
    }

    // After the bounds of some rows from p on have fallen, of which none exceeded the level: their blocks are set anew. Where the row after
    // them stands in p's block and has the level for its bound, so has the block still, and nothing is done.
    pub fn renew(&self, blocks: &mut [u32; 64], level: usize, p: PatternAt, rows: usize)
        requires { p.0 ≤ self.now.job.n }
        ensures { Renewed self.now.job self.now.words.now level p.0 (rows_end self.now.job p.0 rows) blocks.old blocks.new }
    {
        let from = p.0;
        let to = from + rows.min(self.job.n - from);
        if self.in_level(level, from, to) {
            return;
        }
        self.set_blocks(blocks, from / 32, to.div_ceil(32));
    }

    // The next free row after one, as the chain has it.
    fn row_linked(&self, p: usize) -> usize
        requires { p < self.now.job.n }
        ensures { result ≡ next_of (pattern_chain self.now.job self.now.words.now) p }
    {
        let from = 3 * (self.job.n + self.job.m);
        let to = from + self.job.n;
        chain::next_of(&self.words[from..to], p)
    }

    // The last stretch of free words of the pattern before a position; an empty one at 0 where there is none.
    pub fn rows_before(&self, end: PatternAt) -> Stretch<PatternAt>
        requires { end.0 ≤ self.now.job.n }
        ensures { StretchBefore (state self.now.job self.now.words.now).pattern end.0 result.from.0 result.to.0 }
    {
        let n = self.job.n;
        let from = 3 * (n + self.job.m);
        let to = from + n;
        let free = FreeWords {
            words: &self.words[0..n],
            chain: &self.words[from..to],
        };
        let part = free.stretch_before(end.0);
        Stretch {
            from: PatternAt(part.from),
            to: PatternAt(part.to),
        }
    }

    // The same of the text. One function for both would take four offsets from a trait, which is longer than this.
    pub fn text_before(&self, end: TextAt) -> Stretch<TextAt>
        requires { end.0 ≤ self.now.job.m }
        ensures { StretchBefore (state self.now.job self.now.words.now).text end.0 result.from.0 result.to.0 }
    {
        let n = self.job.n;
        let all = n + self.job.m;
        let from = 3 * all + n;
        let to = 4 * all;
        let free = FreeWords {
            words: &self.words[n..all],
            chain: &self.words[from..to],
        };
        let part = free.stretch_before(end.0);
        Stretch {
            from: TextAt(part.from),
            to: TextAt(part.to),
        }
    }
}

impl<'a, 'b> LevelRows<'a, 'b> {
    // A free row after p up to which none has the level for its bound: rows of p's block are passed over as long as each has its neighbour
    // for the next free one, so that no step waits for the entry before it; from there it is the next one.
    fn row_along(&self, p: usize) -> usize
        requires { p < self.now.view.job.n }
        ensures { Passing (λ q. bound self.now.view.job self.now.view.words.now q ≡ self.now.level) (p + 1) self.now.view.job.n result }
    {
        let end = (p / 32 * 32 + 32).min(self.view.job.n);
        for q in p..end - 1 {
            if self.view.row_linked(q) != q + 1
                || self.view.bound_of(PatternAt(q + 1)) == self.level
            {
                return self.view.row_linked(q);
            }
        }
        self.view.row_linked(end - 1)
    }

    // A row after p up to which none has the level for its bound: where p's block is below the level, the first of the next block that is
    // not; else a free row of p's block, or the next one after it.
    fn row_past(&self, p: usize) -> usize
        requires { p < self.now.view.job.n }
        ensures { Passing (λ q. bound self.now.view.job self.now.view.words.now q ≡ self.now.level) (p + 1) self.now.view.job.n result }
    {
        let b = p / 32;
        if (self.blocks[b] as usize) < self.level {
            let count = block_count(self.view.job);
            return (32 * next_block(self.blocks, self.level, b + 1, count)).min(self.view.job.n);
        }
        self.row_along(p)
    }

    // The first row from `from` on whose bound is the level, or one past the last. Rows are taken from the chain, and blocks of rows that
    // are below the level are passed over.
    pub fn next_row(&self, from: PatternAt) -> PatternAt
        requires { from.0 ≤ self.now.view.job.n }
        ensures { First (λ q. bound self.now.view.job self.now.view.words.now q ≡ self.now.level) from.0 self.now.view.job.n result.0 }
    {
        let mut p = from.0;
        while p < self.view.job.n && self.view.bound_of(PatternAt(p)) != self.level {
            p = self.row_past(p);
        }
        PatternAt(p)
    }

    // The first row after p whose bound is the level, or one past the last.
    pub fn later_row(&self, p: PatternAt) -> PatternAt
        requires { p.0 < self.now.view.job.n }
        ensures { First (λ q. bound self.now.view.job self.now.view.words.now q ≡ self.now.level) (p.0 + 1) self.now.view.job.n result.0 }
    {
        let from = self.row_past(p.0);
        self.next_row(PatternAt(from))
    }
}

// Sets the bound of a row.
pub fn set_bound(ws: &mut [u32], job: Job, p: PatternAt, value: usize)
    requires { Space job ws.old × (p.0 < job.n) × (value ≤ 2048) }
    ensures { ws.new ≡ set ws.old (bounds_from job + p.0) value }
{
    let at = 2 * (job.n + job.m) + p.0;
    ws[at] = value as u32;
}

// Takes len words from a position on out of the chain whose entries stand in a part of the workspace.
fn unlink_in(ws: &mut [u32], from: usize, to: usize, at: usize, len: usize)
    requires { (from ≤ to) × (to ≤ length ws.old) × Ranged (take (to - from) (drop from ws.old)) × (1 ≤ len) × (at + len ≤ to - from) }
    ensures { ws.new ≡ unlinked_in from to at len ws.old }
{
    chain::unlink(&mut ws[from..to], at, len);
}

// Marks the words of a tile on both sequences and takes them out of both chains, and clears the bounds of the rows that it covers.
pub fn lay_tile(ws: &mut [u32], job: Job, tile: Tile)
    requires { Space job ws.old × (1 ≤ tile.len) × (tile.p.0 + tile.len ≤ job.n) × (tile.t.0 + tile.len ≤ job.m) }
    ensures { ws.new ≡ laid job tile.p.0 tile.t.0 tile.len ws.old }
{
    mark_tile(ws, job, tile);
    let from = 3 * (job.n + job.m);
    let middle = from + job.n;
    let to = 4 * (job.n + job.m);
    unlink_in(ws, from, middle, tile.p.0, tile.len);
    unlink_in(ws, middle, to, tile.t.0, tile.len);
}

// Marks them, and clears the bounds.
fn mark_tile(ws: &mut [u32], job: Job, tile: Tile)
    requires { Space job ws.old × (tile.p.0 + tile.len ≤ job.n) × (tile.t.0 + tile.len ≤ job.m) }
    ensures { ws.new ≡ marked job tile.p.0 tile.t.0 tile.len ws.old }
{
    let p = tile.p.0;
    let rows = 2 * (job.n + job.m) + p;
    tile::mark_words(ws, p, tile.len);
    tile::mark_words(ws, job.n + tile.t.0, tile.len);
    tile::mark_words(ws, rows, tile.len);
}
