// What both engines share of a comparison under way: what is known of a row without a search, laying a tile, and where to stop.
#![tactic(auto)]

ghost use Rattle.std.specs.Prelude.{◌≡◌, true, false, ◌+◌, ◌*◌, ◌≤◌, ◌<◌, ltb, length, drop};
ghost use Rattle.tiling.specs.Run.{run, equal_run, mark};
ghost use Rattle.tiling.specs.Stretch.{fillable};
ghost use Rattle.stretch.specs.Sides.{OnFree};
ghost use Rattle.bounds.specs.Workspace.{Space, state, bound, laid};
ghost use Rattle.bounds.specs.Blocks.{Falling};
ghost use Rattle.sweep.specs.Row.{better, alike_bound, bound_by, free_words, passed_over, before, taken_over};
ghost use Rattle.sweep.specs.Goal.{at_goal};
ghost use Rattle.sweep.specs.Settled.{one_more, laid_totals, settled_rows};
ghost use Rattle.sweep.specs.Progress.{Searched, Sweeping, Onward};

use bounds::{Job, View};
use tile::{PatternAt, TextAt, Tile};

// The longest run of a row and the first position on the text that has it.
#[derive(Clone, Copy)]
pub struct Found {
    pub t: TextAt,
    pub len: usize,
}

// What a comparison is for: whether its tiles are listed, and where it stops: when as many words are covered as are enough, or
// when fewer than are needed can still be. A whole comparison lists its tiles and never stops. Numbers are compared after each tile; a closure
// in their place would carry the definition `at_goal` as a clause of its own, and an enum of the two goals there are would bind the laws
// of `at_goal`, which hold of any numbers, to these two.
#[derive(Clone, Copy)]
pub struct Goal {
    pub listed: bool,
    pub enough: usize,
    pub needed: usize,
}

// The record of a comparison under way: the tiles laid so far, how many words they cover, and how many words of the pattern
// further tiles may take, which are those in free stretches of at least the minimum; and its goal. That tiles and words are at most 2,048
// is asked where it matters: as ghost fields it would have to be proved in the definitions `no_tiles` and `laid_totals`, which make records.
#[derive(Clone, Copy)]
pub struct Totals {
    pub count: usize,
    pub covered: usize,
    pub fillable: usize,
    pub goal: Goal,
}

// A round of the sweep: the level, and what is laid before it.
#[derive(Clone, Copy)]
pub struct Round {
    pub level: usize,
    pub totals: Totals,
}

// Whether a comparison is at its goal, where it stops: the one test, asked before the first tile and after each.
pub fn at_goal(totals: Totals) -> bool
    requires { (totals.covered ≤ 2048) × (totals.fillable ≤ 2048) }
    ensures { result ≡ at_goal totals }
{
    let goal = totals.goal;
    (goal.enough <= totals.covered) | (totals.covered + totals.fillable < goal.needed)
}

// The longer of what was found and a run of len words at t; of equal ones, what was found.
pub fn keep(found: Found, t: TextAt, len: usize) -> Found
    ensures { result ≡ better found t len }
{
    if found.len < len {
        return Found { t, len };
    }
    found
}

// How many rows have a new bound after one was settled: those of the tile that was laid, or the row itself.
pub fn settled_rows(before: Totals, after: Totals, level: usize) -> usize
    ensures { result ≡ settled_rows before after level }
{
    if before.count == after.count {
        return 1;
    }
    level
}

// Whether two rows begin with the same calls for more than len words.
fn alike(view: &View<'_>, p: PatternAt, q: PatternAt, len: usize) -> bool
    requires { (p.0 < view.now.job.n) × (q.0 < view.now.job.n) }
    ensures { result ≡ ltb len (run (drop p.0 (state view.now.job view.now.words.now).pattern) (drop q.0 (state view.now.job view.now.words.now).pattern)) }
{
    let a = p.0;
    let b = q.0;
    if view.job.n - a <= len {
        return false;
    }
    if view.job.n - b <= len {
        return false;
    }
    let a_end = a + len + 1;
    let b_end = b + len + 1;
    len < measure::longer_run(&view.words[a..a_end], &view.words[b..b_end], len)
}

// What row q tells of row p, of which no run exceeds cap: where both begin with the same calls for more words than q's bound,
// no run of p exceeds that bound either. It is cap where q tells nothing less.
fn alike_bound(view: &View<'_>, p: PatternAt, q: PatternAt, cap: usize) -> usize
    requires { (p.0 < view.now.job.n) × (q.0 < view.now.job.n) }
    ensures { result ≡ alike_bound view.now.job view.now.words.now p.0 q.0 cap }
{
    let len = view.bound_of(q);
    if cap <= len {
        return cap;
    }
    if !alike(view, p, q, len) {
        return cap;
    }
    len
}

// The same of a row that need not be there: before `from`, or past the pattern, it tells nothing.
pub fn bound_by(view: &View<'_>, p: PatternAt, q: PatternAt, from: PatternAt, cap: usize) -> usize
    requires { p.0 < view.now.job.n }
    ensures { result ≡ bound_by view.now.job view.now.words.now p.0 q.0 from.0 cap }
{
    if q.0 < from.0 {
        return cap;
    }
    if view.job.n <= q.0 {
        return cap;
    }
    alike_bound(view, p, q, cap)
}

// How many words a run of the row at p may have, where none exceeds cap: as many as there are, or, where the last of them is no call, as
// the calls that it begins with.
pub fn free_words(view: &View<'_>, p: PatternAt, cap: usize) -> usize
    requires { (p.0 < view.now.job.n) × (1 ≤ cap) }
    ensures { result ≡ free_words view.now.job view.now.words.now p.0 cap }
{
    let from = p.0;
    let n = view.job.n;
    let len = cap.min(n - from);
    let last = from + (len - 1);
    if symbol::is_call(view.words[last]) {
        return len;
    }
    measure::longer_run(&view.words[from..n], &view.words[from..n], 0)
}

// How often a row's first word stands again right after it.
pub fn repeats(row: &[u32]) -> usize
    ensures { result ≡ equal_run row.now (drop 1 row.now) }
{
    if row.is_empty() {
        return 0;
    }
    measure::longer_run(row, &row[1..], 0)
}

// How many positions after one with a run of len words have a shorter one: those within it, where the row's first word stands again so
// often that all its words are the same.
pub fn passed_over(again: usize, len: usize) -> usize
    ensures { result ≡ passed_over again len }
{
    if len <= again {
        return len;
    }
    0
}

// The position just before t in a text of m words; m where there is none, as the definition `before` has it: an option would not be
// plainer, since t may also lie past the text.
pub fn one_before(t: TextAt, m: usize) -> TextAt
    ensures { result.0 ≡ before t.0 m }
{
    if t.0 == 0 {
        return TextAt(m);
    }
    TextAt((t.0 - 1).min(m))
}

// Whether a bound is taken over from the row after, without a search: where the run found there began at the text's beginning,
// so that it could not go on, and from 2 s words on, unless it is a power of 2. So no bound is twice what a search would have
// found, and a long run is measured only a few times.
pub fn taken_over(after: TextAt, s: usize, cap: usize) -> bool
    requires { (s ≤ 2048) × (1 ≤ cap) }
    ensures { result ≡ taken_over after.0 s cap }
{
    (after.0 == 0) & (2 * s <= cap) & (cap & (cap - 1) != 0)
}

// How many fewer words of the pattern further tiles may take after one of len words at p.
fn taken_by(view: &View<'_>, p: PatternAt, len: usize) -> usize
    requires { OnFree view.now.job.minimum p.0 len (state view.now.job view.now.words.now).pattern }
    ensures { result + fillable view.now.job.minimum (mark p.0 len (state view.now.job view.now.words.now).pattern) ≡ fillable view.now.job.minimum (state view.now.job view.now.words.now).pattern }
{
    let n = view.job.n;
    stretch::taken(&view.words[0..n], view.job.minimum, p.0, len)
}

// Lays a tile and brings the record of the comparison up to date.
fn lay_next(ws: &mut [u32], job: Job, tile: Tile, totals: Totals) -> Totals
    requires space { Space job ws.old × (tile.p.0 + tile.len ≤ job.n) × (tile.t.0 + tile.len ≤ job.m) × OnFree job.minimum tile.p.0 tile.len (state job ws.old).pattern }
    requires totals_known { (totals.count ≤ 2048) × (totals.covered ≤ 2048) × (totals.fillable ≡ fillable job.minimum (state job ws.old).pattern) }
    ensures value { result ≡ laid_totals job tile.p.0 tile.len ws.old totals }
    ensures ws_after { ws.new ≡ laid job tile.p.0 tile.t.0 tile.len ws.old }
{
    let goal = totals.goal;
    let taken = taken_by(&View { job, words: ws }, tile.p, tile.len);
    bounds::lay_tile(ws, job, tile);
    Totals {
        count: totals.count + 1,
        covered: totals.covered + tile.len,
        fillable: totals.fillable - taken,
        goal,
    }
}

// Lists a tile after those that are listed already, where tiles are listed.
fn list(tiles: &mut [u32], job: Job, totals: Totals, tile: Tile)
    requires { (totals.goal.listed ≡ true → 3 * (totals.count + 1) ≤ length tiles.old) × (tile.p.0 ≤ 2048) × (tile.t.0 ≤ 2048) × (tile.len ≤ 2048) × (totals.count ≤ 2048) }
    ensures { tiles.new ≡ one_more job totals (record { p = tile.p.0; t = tile.t.0; len = tile.len }) tiles.old }
{
    let goal = totals.goal;
    if goal.listed {
        tile::list_tile(tiles, totals.count, job.straight, tile);
    }
}

// After the row at p was searched, where its bound is the level, and so long a run was found: it is the next tile, since no run is longer and no
// row before has one as long. (A shorter one is the row's new bound, which is all that there is to do then.) Workspace, tiles and totals
// are lent to be written, so they stay apart.
pub fn settle(
    ws: &mut [u32],
    job: Job,
    level: usize,
    p: PatternAt,
    found: Found,
    tiles: &mut [u32],
    totals: Totals,
) -> Totals
    requires { Sweeping job level p.0 ws.old tiles.old totals × (at_goal totals ≡ false) × (p.0 < job.n) × (bound job ws.old p.0 ≡ level) × Searched job ws.old level p.0 found × (found.len ≡ level) }
    ensures level_bound { (p.0 + level ≤ job.n) × (found.t.0 + level ≤ job.m) }
    ensures value { result ≡ laid_totals job p.0 level ws.old totals }
    ensures ws_after { ws.new ≡ laid job p.0 found.t.0 level ws.old }
    ensures tiles_after { tiles.new ≡ one_more job totals (record { p = p.0; t = found.t.0; len = level }) tiles.old }
    ensures sweeping { Sweeping job level (p.0 + 1) ws.new tiles.new result }
    ensures onward { Onward job ws.old tiles.old totals ws.new tiles.new result }
    ensures falling { Falling job ws.old ws.new }
{
    let tile = Tile {
        p,
        t: found.t,
        len: level,
    };
    list(tiles, job, totals, tile);
    lay_next(ws, job, tile, totals)
}
