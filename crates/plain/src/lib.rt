// The plain engine: any pair of positions may be looked at, and no hash.
#![tactic(auto)]

ghost use Rattle.std.specs.Prelude.{◌≡◌, ◌+◌, ◌-◌, ◌≤◌, ◌<◌, min, length, drop, IfOk};
ghost use Rattle.symbol.specs.Sequence.{Current};
ghost use Rattle.tiling.specs.Run.{equal_run};
ghost use Rattle.refusal.specs.Number.{numbered};
ghost use Rattle.tiling.specs.Comparing.{plain_refusal};
ghost use Rattle.tiling.specs.Outcome.{compared_as};
ghost use Rattle.measure.specs.Block.{counted};
ghost use Rattle.bounds.specs.Workspace.{state};
ghost use Rattle.sweep.specs.Row.{Row, passed_over};
ghost use Rattle.chain.specs.First.{First, Passing};
ghost use Rattle.chain.specs.Chain.{Free};
ghost use Rattle.sweep.specs.Progress.{UpperFrom, RowBound};
ghost use Rattle.ends.specs.Result.{Room, Ran};
ghost use Rattle.plain.specs.Promise.{Plain};
ghost use Rattle.plain.specs.Bounds.{Capped, goes_on};
ghost use Rattle.plain.specs.Pair.{SideBySide};

use bounds::{Job, View};
use chain::FreeWords;
use checks::Pair;
use levels::Engine;
use refusal::Refusal;
use sweep::{Found, Goal, Totals};
use tile::{PatternAt, TextAt};
use tiling::Summary;

// How many positions of the text are looked at as a whole, before the chain is asked where to go on.
const PART: usize = 1024;

// A position of the text from `from` on before which none has a so many words further on and b further still: the first that has them, or
// the end of a part of the text. With few codes it is often `from` itself.
fn next_pair(text: &[u32], from: TextAt, near: usize, far: usize, a: u32, b: u32) -> TextAt
    requires { (near ≤ far) × (from.0 + far < length text.now) × (length text.now ≤ 2048) }
    ensures { Passing (SideBySide text.now near far a b) from.0 (length text.now - far) result.0 }
{
    let at = from.0;
    let first = at + near;
    let second = at + far;
    if (text[first] == a) & (text[second] == b) {
        return from;
    }
    let count = PART.min(text.len() - second);
    let first_to = first + count;
    let second_to = second + count;
    let passed = measure::positions_before(&text[first..first_to], &text[second..second_to], a, b);
    TextAt(at + passed)
}

// The run at a position of the text, of which one longer than best is looked for. None begins at a word that is not free.
fn run_at(pattern: &[u32], text: &[u32], at: TextAt, best: usize) -> usize
    requires { at.0 < length text.now }
    ensures { result ≡ counted best (equal_run pattern.now (drop at.0 text.now)) }
{
    let from = at.0;
    if text[from] == 0 {
        return 0;
    }
    measure::measured_run(pattern, &text[from..], best)
}

// The next position of the chain after one with a run of len words, and after those that the run tells to have a shorter one.
fn next_start(text: &FreeWords<'_>, at: TextAt, again: usize, len: usize) -> usize
    requires { (at.0 ≤ length text.now.words.now) × (len ≤ 2048) }
    ensures { First (Free text.now.words.now) (min (at.0 + 1 + passed_over again len) (length text.now.words.now)) (length text.now.words.now) result }
{
    let from = at.0 + 1 + sweep::passed_over(again, len);
    text.free_from(from.min(text.words.len()))
}

// The longest run of the row that pattern starts, where it is longer than floor, and the first position on the text that
// has it. A run longer than what was found has the pattern's word at that offset, and the one where the last run that was measured
// ended, so positions that lack either are passed over; and so are those within a run of one word again and again. The search ends
// where too few words are left for a longer run.
fn row_search(pattern: &[u32], text: &FreeWords<'_>, floor: usize) -> Found
    requires { (floor ≤ 2048) × (length pattern.now ≤ 2048) × Current pattern.now × Current text.now.words.now }
    ensures { Row pattern.now text.now.words.now floor result }
{
    let words = text.words;
    let mut found = Found {
        t: TextAt(0),
        len: floor,
    };
    let again = sweep::repeats(pattern);
    let mut ended = 0;
    let mut t = text.free_from(0);
    while found.len < pattern.len() && t + found.len < words.len() {
        let far = found.len;
        let at = next_pair(words, TextAt(t), ended, far, pattern[ended], pattern[far]);
        if words.len() <= at.0 + far {
            return found;
        }
        let len = run_at(pattern, words, at, far);
        ended = len.min(far);
        found = sweep::keep(found, at, len);
        t = next_start(text, at, again, len);
    }
    found
}

// Searches the row at p for runs longer than floor, where none exceeds cap: so it ends at the first of cap words.
fn search_row(view: &View<'_>, p: PatternAt, floor: usize, cap: usize) -> Found
    requires { (p.0 < view.now.job.n) × (floor ≤ 2048) × Capped (state view.now.job view.now.words.now) p.0 cap }
    ensures { Row (drop p.0 (state view.now.job view.now.words.now).pattern) (state view.now.job view.now.words.now).text floor result }
{
    let from = p.0;
    let n = view.job.n;
    let to = from + cap.min(n - from);
    let end = n + view.job.m;
    let links = 3 * (n + view.job.m) + n;
    let all = 4 * (n + view.job.m);
    let text = FreeWords {
        words: &view.words[n..end],
        chain: &view.words[links..all],
    };
    row_search(&view.words[from..to], &text, floor)
}

// Whether the run at t of the row after p goes on with the words one position before it. The fast engine's asks a hash first, so they are two.
fn goes_on(view: &View<'_>, p: PatternAt, t: TextAt) -> bool
    requires { p.0 < view.now.job.n }
    ensures { result ≡ goes_on view.now.job view.now.words.now p.0 t.0 }
{
    let before = sweep::one_before(t, view.job.m);
    if view.job.m <= before.0 {
        return false;
    }
    let on_pattern = p.0;
    let on_text = view.job.n + before.0;
    symbol::equal_calls(view.words[on_pattern], view.words[on_text])
}

// How the plain engine searches rows: all that it keeps is which row was searched last, which may tell of another. A row past the pattern
// tells nothing (`bound_by`), so none needs no case of its own.
#[derive(Drop)]
struct Scan {
    last: PatternAt,
}

impl Scan {
    // Searches the row at p, and remembers it where its longest run is shorter than cap. It takes the view by value, so that callers, which
    // seldom search, keep theirs in registers.
    fn search_kept(&mut self, view: View<'_>, p: PatternAt, floor: usize, cap: usize) -> Found
        requires { (p.0 < view.job.n) × (floor ≤ 2048) × Capped (state view.job view.words.now) p.0 cap }
        ensures { Row (drop p.0 (state view.entry.job view.entry.words.now).pattern) (state view.entry.job view.entry.words.now).text floor result }
    {
        let found = search_row(&view, p, floor, cap);
        if found.len < cap {
            self.last = p;
        }
        found
    }

    // A length up to cap that no run of the row at p exceeds, where none exceeds cap: as the row tells it that was searched last, or
    // cap itself where that is taken over from the row after, or as a search finds it. It looks for runs of half the minimum: where
    // there is none, the rows before need no search for as many words more.
    fn capped(&mut self, view: &View<'_>, p: PatternAt, after: TextAt, cap: usize) -> Found
        requires { (p.0 < view.now.job.n) × (1 ≤ view.now.job.minimum) × (view.now.job.minimum ≤ 256) × (view.now.job.minimum ≤ cap) × RowBound view.now.job (state view.now.job view.now.words.now) p.0 cap × UpperFrom view.now.job view.now.words.now (p.0 + 1) }
        ensures { RowBound view.now.job (state view.now.job view.now.words.now) p.0 result.len }
    {
        let minimum = view.job.minimum;
        let known = sweep::bound_by(view, p, self.last, PatternAt(p.0 + 1), cap);
        if known < cap || sweep::taken_over(after, minimum, cap) {
            return Found {
                t: TextAt(0),
                len: known,
            };
        }
        self.search_kept(*view, p, (minimum - 1) / 2, cap)
    }
}

impl Engine for Scan {
    ghost use Rattle.std.proofs.Common.{arith};
    ghost use Rattle.std.specs.Prelude.{⊤};

    ghost Tables = { Unit {0} };

    ghost tables = { λ e. tt };

    ghost Serves = { λ e j ws. (1 ≤ j.minimum) × (j.minimum ≤ 256) };

    ghost Fills = { λ e j ws. ⊤ };

    ghost least = { λ e j. j.minimum };

    fn least_run(&self, job: Job) -> usize {
        job.minimum
    }

    // A run is at most one word longer than the run one position on.
    fn row_bound(&mut self, view: &View<'_>, p: PatternAt, after: Found) -> Found {
        let at = p.0;
        if !symbol::is_call(view.words[at]) {
            return Found {
                t: TextAt(0),
                len: 0,
            };
        }
        let cap = after.len + 1;
        if cap < view.job.minimum {
            return Found {
                t: TextAt(0),
                len: cap,
            };
        }
        if goes_on(view, p, after.t) {
            return Found {
                t: TextAt(after.t.0 - 1),
                len: cap,
            };
        }
        self.capped(view, p, after.t, cap)
    }

    // A length below cap is told by the row's free words, or by the row that was searched last, or found by a search.
    fn find(&mut self, view: &View<'_>, p: PatternAt, cap: usize) -> Found {
        let free = sweep::free_words(view, p, cap);
        let known = sweep::bound_by(view, p, self.last, PatternAt(0), free);
        if known < cap {
            return Found {
                t: TextAt(0),
                len: known,
            };
        }
        self.search_kept(*view, p, view.job.minimum - 1, cap)
    }

    ghost enough = { λ e j ws s. record { some = s.0; long = Prim.omega arith } };

    ghost kept = { λ e j ws ws' k s. s };

    ghost fills_kept = { λ e j ws ws' k s f. f };
}

// Lays the tiles of two sequences for which no cause of a refusal holds, until a goal.
fn lay(pair: Pair<'_>, goal: Goal, workspace: &mut [u32], tiles: &mut [u32]) -> Totals
    requires { Room (length pair.first.now) (length pair.second.now) pair.minimum goal (length workspace.old) (length tiles.old) }
    ensures { Ran pair.entry.first.now pair.entry.second.now pair.entry.minimum goal tiles.old tiles.new result }
{
    let job = ends::open(pair.first, pair.second, pair.minimum as usize, workspace);
    let mut scan = Scan {
        last: PatternAt(2048),
    };
    levels::lay_all(&mut scan, workspace, job, tiles, ends::unlaid(job, goal))
}

// The checks of a comparison.
fn check_plain<'a>(
    first: &'a [u32],
    second: &'a [u32],
    minimum: u32,
    workspace: usize,
    tiles: usize,
) -> Result<Pair<'a>, Refusal>
    ensures checked { numbered result ≡ plain_refusal first.now second.now minimum workspace tiles }
    ensures same { IfOk result (λ pair. (pair.first.now ≡ first.now) × (pair.second.now ≡ second.now) × (pair.minimum ≡ minimum)) }
{
    let pair = checks::check_pair(first, second, minimum)?;
    checks::check_room(pair, workspace, tiles)?;
    Ok(pair)
}

// Compares two sequences by greedy string tiling with a minimum length of tiles. The tiles go to the start of the tile buffer
// in the order laid, each as first start, second start and length; the answer has their number, how many words they cover, and
// the score; the whole workspace is zero. Refused: `TooLong` for more than 2,048 words, `Unsound` for an unsound word,
// `Minimum` for one outside 1 to 256, `Workspace` for one of fewer than 4 words for each word of both sequences, `Tiles` for a
// tile buffer too short; workspace and tile buffer are then as they were.
pub fn compare(
    first: &[u32],
    second: &[u32],
    minimum: u32,
    workspace: &mut [u32],
    tiles: &mut [u32],
) -> Result<Summary, Refusal>
    ensures { Plain first.now second.now minimum workspace.old tiles.old (compared_as result) workspace.new tiles.new }
{
    let pair = check_plain(first, second, minimum, workspace.len(), tiles.len())?;
    let sum = lay(pair, ends::whole(), workspace, tiles);
    Ok(ends::close(workspace, first.len() + second.len(), sum))
}
