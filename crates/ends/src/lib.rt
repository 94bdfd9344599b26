// The two ends of a comparison, the same for both engines. Before it the pattern is chosen, and both sequences are copied to the
// workspace; after it the workspace is cleared and the answer made. What lies between goes from one state of the workspace to
// another and knows nothing of either.
#![tactic(auto)]

ghost use Rattle.std.specs.Prelude.{◌≡◌, ◌++◌, map, ◌+◌, ◌*◌, ◌≤◌, length, replicate, Ok};
ghost use Rattle.symbol.specs.Word.{replaced};
ghost use Rattle.buffer.specs.Buffer.{onto};
ghost use Rattle.tiling.specs.Choice.{first_is_pattern};
ghost use Rattle.tiling.specs.Outcome.{compared_as};
ghost use Rattle.ends.specs.Ends.{whole_goal, begun, Opened, no_tiles, Closed};

use bounds::Job;
use sweep::{Goal, Totals};
use tiling::Summary;

// Whether the first sequence is the pattern: the shorter one is, and of equal lengths the one with the smaller word, as it stands, at the first
// position where they differ. Of equal sequences it is the first. The calls that both begin with are passed over block by block.
fn first_is_pattern(first: &[u32], second: &[u32]) -> bool
    ensures { result ≡ first_is_pattern first.now second.now }
{
    if first.len() != second.len() {
        return first.len() < second.len();
    }
    let run = measure::longer_run(first, second, 0);
    for i in run..first.len() {
        let a = first[i];
        let b = second[i];
        if a != b {
            return a < b;
        }
    }
    true
}

// Copies words to the start of a buffer, each of them replaced. Most sequences have no retired code. Words are stored by index, since after
// a `zip` with the buffer's `iter_mut` a proof would know the buffer's length and none of its words.
fn copy_replaced(words: &[u32], buffer: &mut [u32])
    requires { length words.now ≤ length buffer.old }
    ensures { buffer.new ≡ onto (map replaced words.now) buffer.old }
{
    if symbol::none_retired(words) {
        buffer::copy(words, buffer);
        return;
    }
    for (i, word) in words.iter().enumerate() {
        buffer[i] = symbol::replaced(*word);
    }
}

// Puts pattern and text to the start of the workspace, their words replaced once and for all.
fn copy_in(pattern: &[u32], text: &[u32], ws: &mut [u32])
    requires { length pattern.now + length text.now ≤ length ws.old }
    ensures { ws.new ≡ onto (map replaced pattern.now ++ map replaced text.now) ws.old }
{
    let n = pattern.len();
    let end = n + text.len();
    copy_replaced(pattern, ws);
    copy_replaced(text, &mut ws[n..end]);
}

// The same, and links each word to its neighbours: all are free.
fn begin(pattern: &[u32], text: &[u32], ws: &mut [u32])
    requires { 4 * (length pattern.now + length text.now) ≤ length ws.old }
    ensures { ws.new ≡ begun pattern.now text.now ws.old }
{
    let words = pattern.len() + text.len();
    copy_in(pattern, text, ws);
    tile::mark_words(ws, 3 * words, words);
}

// The goal of a whole comparison: its tiles are listed, and no comparison covers enough words to stop it.
pub fn whole() -> Goal
    ensures { result ≡ whole_goal }
{
    Goal {
        listed: true,
        enough: 2049,
        needed: 0,
    }
}

// Chooses the pattern, by the words as handed in, puts pattern and text to the start of the workspace, and links their words. It asks
// nothing of the sequences or of the minimum, as a pair of checked ones would.
pub fn open(first: &[u32], second: &[u32], minimum: usize, ws: &mut [u32]) -> Job
    requires { 4 * (length first.now + length second.now) ≤ length ws.old }
    ensures { Opened first.now second.now minimum ws.old result ws.new }
{
    if first_is_pattern(first, second) {
        begin(first, second, ws);
        return Job {
            n: first.len(),
            m: second.len(),
            minimum,
            straight: true,
        };
    }
    begin(second, first, ws);
    Job {
        n: second.len(),
        m: first.len(),
        minimum,
        straight: false,
    }
}

// The record of a comparison with a goal that was just opened: nothing is laid, and all words of the pattern are free.
pub fn unlaid(job: Job, goal: Goal) -> Totals
    ensures { result ≡ no_tiles job goal }
{
    Totals {
        count: 0,
        covered: 0,
        fillable: stretch::if_long(job.n, job.minimum),
        goal,
    }
}

// Clears the whole workspace.
pub fn clear(ws: &mut [u32])
    ensures { ws.new ≡ replicate (length ws.old) 0 }
{
    let words = ws.len();
    tile::mark_words(ws, 0, words);
}

// Clears the whole workspace and answers what the tiles come to, of sequences with total words together.
pub fn close(ws: &mut [u32], total: usize, totals: Totals) -> Summary
    requires { (totals.count ≤ 2048) × (totals.covered ≤ 2048) × (total ≤ 4096) }
    ensures { Closed total totals ws.old (compared_as (Ok result)) ws.new }
{
    clear(ws);
    let tiles = totals.count as u32;
    let covered = totals.covered as u32;
    let score = tile::score_of(totals.covered, total);
    Summary {
        tiles,
        covered,
        score,
    }
}
