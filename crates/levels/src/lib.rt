// What both engines do with their rows: the bounds of all rows are set, and rows are searched level by level, and their tiles laid. How a
// row is searched is the engine's own.
#![tactic(auto)]

ghost use Rattle.std.specs.Prelude.{◌≡◌, ℕ, false, ◌+◌, ◌≤◌, ◌<◌, List};
ghost use Rattle.bounds.specs.Workspace.{Space, state, bound};
ghost use Rattle.bounds.specs.Blocks.{Covering, Falling};
ghost use Rattle.sweep.specs.Goal.{at_goal};
ghost use Rattle.sweep.specs.Progress.{Fits, RowBound, NextRows, FilledFrom, Filled, UpperFrom, Ready, Searched, Sweeping, Over, Onward, Finished};
ghost use Rattle.levels.specs.Kept.{Kept, Enough};
ghost use Rattle.bounds.specs.declared.Job.{Job};

use bounds::{Job, LevelRows, View};
use chain::Stretch;
use sweep::{Found, Round, Totals};
use tile::{PatternAt, TextAt};

// How an engine searches rows. What `Serves` and `Fills` say is of the engine and of a workspace that is written between, like the blocks
// that cover its bounds, the tile buffer and the totals: no value can hold these as they are lent, so each function asks it and says it.
pub trait Engine {
    // What it looks rows up in, and what that is of an engine. No search changes it; only what it remembers of rows changes.
    ghost Tables: { Type 0 };

    ghost tables: { Self → Tables };

    // What its tables hold of a workspace, whose rows it then can search.
    ghost Serves: { Self → Job → List ℕ → Type 0 };

    // What they hold besides while bounds are set.
    ghost Fills: { Self → Job → List ℕ → Type 0 };

    // The fewest words of a run that it looks for.
    ghost least: { Self → Job → ℕ };

    // The same.
    fn least_run(&self, job: Job) -> usize
        ensures { result ≡ least self.now job };

    // A length that no run of the row at p exceeds, from that of the row after it. The position is one at which a run of that length may
    // be, or 0.
    fn row_bound(&mut self, view: &View<'_>, p: PatternAt, after: Found) -> Found
        requires { Serves self.old view.now.job view.now.words.now × Fills self.old view.now.job view.now.words.now × (p.0 < view.now.job.n) × RowBound view.now.job (state view.now.job view.now.words.now) (p.0 + 1) after.len × UpperFrom view.now.job view.now.words.now (p.0 + 1) }
        ensures value { RowBound view.now.job (state view.now.job view.now.words.now) p.0 result.len }
        ensures serves { Serves self.new view.now.job view.now.words.now }
        ensures fills { Fills self.new view.now.job view.now.words.now }
        ensures tables_kept { tables self.new ≡ tables self.old }
        ensures least_kept { (j : Job) → least self.new j ≡ least self.old j };

    // The first run of cap words of the row at p, whose bound that is; else a length below it that no run of the row exceeds.
    fn find(&mut self, view: &View<'_>, p: PatternAt, cap: usize) -> Found
        requires { Serves self.old view.now.job view.now.words.now × (p.0 < view.now.job.n) × (least self.old view.now.job ≤ cap) × (cap ≡ bound view.now.job view.now.words.now p.0) × UpperFrom view.now.job view.now.words.now 0 }
        ensures value { Searched view.now.job view.now.words.now cap p.0 result }
        ensures serves { Serves self.new view.now.job view.now.words.now }
        ensures tables_kept { tables self.new ≡ tables self.old }
        ensures least_kept { (j : Job) → least self.new j ≡ least self.old j };

    // It looks for no run below the minimum.
    ghost enough: { (e : Self) (j : Job) (ws : List ℕ) → Serves e j ws → Enough j (least e j) };

    // Neither a new bound nor a tile takes from its tables what they hold.
    ghost kept: { (e : Self) (j : Job) (ws ws' : List ℕ) → Kept j ws ws' → Serves e j ws → Serves e j ws' };

    ghost fills_kept: { (e : Self) (j : Job) (ws ws' : List ℕ) → Kept j ws ws' → Serves e j ws → Fills e j ws → Fills e j ws' };
}

// Sets the bound of each row of a stretch, from the last to the first.
fn fill_stretch<E: Engine>(engine: &mut E, ws: &mut [u32], job: Job, part: Stretch<PatternAt>)
    requires { Space job ws.old × E.Serves engine.old job ws.old × E.Fills engine.old job ws.old × NextRows job ws.old part.from.0 part.to.0 }
    ensures filled { FilledFrom job ws.old ws.new part.from.0 }
    ensures serves { E.Serves engine.new job ws.new }
    ensures fills { E.Fills engine.new job ws.new }
    ensures tables_kept { E.tables engine.new ≡ E.tables engine.old }
    ensures least_kept { (j : Job) → E.least engine.new j ≡ E.least engine.old j }
{
    let mut after = Found {
        t: TextAt(0),
        len: 0,
    };
    for p in (part.from.0..part.to.0).rev() {
        after = engine.row_bound(&View { job, words: ws }, PatternAt(p), after);
        bounds::set_bound(ws, job, PatternAt(p), after.len);
    }
}

// Sets the bound of each free row, stretch by stretch, from the last to the first. The others have no run.
pub fn fill_bounds<E: Engine>(engine: &mut E, ws: &mut [u32], job: Job)
    requires { Space job ws.old × E.Serves engine.old job ws.old × E.Fills engine.old job ws.old }
    ensures filled { Filled job ws.old ws.new }
    ensures serves { E.Serves engine.new job ws.new }
    ensures fills { E.Fills engine.new job ws.new }
    ensures tables_kept { E.tables engine.new ≡ E.tables engine.old }
    ensures least_kept { (j : Job) → E.least engine.new j ≡ E.least engine.old j }
{
    let mut part = View { job, words: ws }.rows_before(PatternAt(job.n));
    while 0 < part.to.0 {
        fill_stretch(engine, ws, job, part);
        part = View { job, words: ws }.rows_before(part.from);
    }
}

// A row whose bound is the level is searched again: a run of that length is the next tile, and a shorter one is the row's new bound.
fn visit<E: Engine>(
    engine: &mut E,
    ws: &mut [u32],
    job: Job,
    p: PatternAt,
    tiles: &mut [u32],
    totals: Totals,
) -> Totals
    requires { Sweeping job (bound job ws.old p.0) p.0 ws.old tiles.old totals × (at_goal totals ≡ false) × E.Serves engine.old job ws.old × (E.least engine.old job ≤ bound job ws.old p.0) × (p.0 < job.n) }
    ensures sweeping { Sweeping job (bound job ws.old p.0) (p.0 + 1) ws.new tiles.new result }
    ensures onward { Onward job ws.old tiles.old totals ws.new tiles.new result }
    ensures falling { Falling job ws.old ws.new }
    ensures serves { E.Serves engine.new job ws.new }
    ensures tables_kept { E.tables engine.new ≡ E.tables engine.old }
    ensures least_kept { (j : Job) → E.least engine.new j ≡ E.least engine.old j }
{
    let view = View { job, words: ws };
    let level = view.bound_of(p);
    let found = engine.find(&view, p, level);
    if found.len != level {
        bounds::set_bound(ws, job, p, found.len);
        return totals;
    }
    sweep::settle(ws, job, level, p, found, tiles, totals)
}

// The same, and the blocks are set anew whose bounds have fallen.
fn step<E: Engine>(
    engine: &mut E,
    ws: &mut [u32],
    job: Job,
    blocks: &mut [u32; 64],
    p: PatternAt,
    tiles: &mut [u32],
    totals: Totals,
) -> Totals
    requires { Sweeping job (bound job ws.old p.0) p.0 ws.old tiles.old totals × (at_goal totals ≡ false) × Covering job ws.old blocks.old × E.Serves engine.old job ws.old × (E.least engine.old job ≤ bound job ws.old p.0) × (p.0 < job.n) }
    ensures sweeping { Sweeping job (bound job ws.old p.0) (p.0 + 1) ws.new tiles.new result }
    ensures onward { Onward job ws.old tiles.old totals ws.new tiles.new result }
    ensures covering { Covering job ws.new blocks.new }
    ensures serves { E.Serves engine.new job ws.new }
    ensures tables_kept { E.tables engine.new ≡ E.tables engine.old }
    ensures least_kept { (j : Job) → E.least engine.new j ≡ E.least engine.old j }
{
    let level = View { job, words: ws }.bound_of(p);
    let sum = visit(engine, ws, job, p, tiles, totals);
    let rows = sweep::settled_rows(totals, sum, level);
    View { job, words: ws }.renew(blocks, level, p, rows);
    sum
}

// Goes through the rows in order and lays every tile of the level's length, until the goal.
fn sweep_rows<E: Engine>(
    engine: &mut E,
    ws: &mut [u32],
    job: Job,
    blocks: &mut [u32; 64],
    tiles: &mut [u32],
    round: Round,
) -> Totals
    requires { Sweeping job round.level 0 ws.old tiles.old round.totals × Covering job ws.old blocks.old × E.Serves engine.old job ws.old × (E.least engine.old job ≤ round.level) }
    ensures over { Over job round.level ws.new tiles.new result }
    ensures onward { Onward job ws.old tiles.old round.totals ws.new tiles.new result }
    ensures covering { Covering job ws.new blocks.new }
    ensures serves { E.Serves engine.new job ws.new }
    ensures tables_kept { E.tables engine.new ≡ E.tables engine.old }
    ensures least_kept { (j : Job) → E.least engine.new j ≡ E.least engine.old j }
{
    let level = round.level;
    let mut sum = round.totals;
    let view = View { job, words: ws };
    let mut p = LevelRows {
        view,
        blocks,
        level,
    }
    .next_row(PatternAt(0));
    while p.0 < job.n && !sweep::at_goal(sum) {
        sum = step(engine, ws, job, blocks, p, tiles, sum);
        let view = View { job, words: ws };
        p = LevelRows {
            view,
            blocks,
            level,
        }
        .later_row(p);
    }
    sum
}

// Lays the tiles of every length from the greatest bound down to the engine's least run, until the goal.
pub fn lay_levels<E: Engine>(
    engine: &mut E,
    ws: &mut [u32],
    job: Job,
    blocks: &mut [u32; 64],
    tiles: &mut [u32],
    totals: Totals,
) -> Totals
    requires { Ready job ws.old tiles.old totals × Covering job ws.old blocks.old × E.Serves engine.old job ws.old }
    ensures finished { Finished job (E.least engine.old job) ws.old tiles.old totals ws.new tiles.new result }
    ensures tables_kept { E.tables engine.new ≡ E.tables engine.old }
{
    let least = engine.least_run(job);
    let mut sum = totals;
    let mut level = bounds::top(blocks, job);
    while least <= level && !sweep::at_goal(sum) {
        let round = Round { level, totals: sum };
        sum = sweep_rows(engine, ws, job, blocks, tiles, round);
        level = (level - 1).min(bounds::top(blocks, job));
    }
    sum
}

// Lays every tile of at least the engine's least run, from the state that the workspace holds, until the goal.
pub fn lay_all<E: Engine>(
    engine: &mut E,
    ws: &mut [u32],
    job: Job,
    tiles: &mut [u32],
    totals: Totals,
) -> Totals
    requires { Fits job ws.old tiles.old totals × E.Serves engine.old job ws.old × E.Fills engine.old job ws.old }
    ensures finished { Finished job (E.least engine.old job) ws.old tiles.old totals ws.new tiles.new result }
    ensures tables_kept { E.tables engine.new ≡ E.tables engine.old }
{
    fill_bounds(engine, ws, job);
    let mut blocks = [0u32; 64];
    View { job, words: ws }.refresh(&mut blocks);
    lay_levels(engine, ws, job, &mut blocks, tiles, totals)
}
