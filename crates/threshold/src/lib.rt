// Whether two sequences score at least a threshold, and how many tiles it takes to tell: it stops laying them when that many words
// are covered, or when so many no longer can be.
#![tactic(auto)]

ghost use Rattle.std.specs.Prelude.{◌≡◌, ◌+◌, ◌*◌, ◌≤◌, length, replicate, Ok, IfOk};
ghost use Rattle.refusal.specs.Number.{numbered};
ghost use Rattle.threshold.specs.Promise.{threshold_refusal, told_answer, AtLeast};
ghost use Rattle.threshold.specs.Outcome.{told_as};
ghost use Rattle.threshold.specs.Words.{words_for, goal_for};

use refusal::Refusal;
use search::{Search, Settings};
use sweep::Goal;

// Whether the threshold is reached, and how many tiles were laid until that was told.
#[derive(Clone, Copy)]
pub struct Verdict {
    pub reached: bool,
    pub tiles: u32,
}

// The answer of an exported call: a refusal's number and zeros, or 0, whether the threshold is reached, 1 or 0, and the tiles laid.
#[repr(C)]
#[derive(Clone, Copy)]
pub struct Told {
    pub refusal: u32,
    pub reached: u32,
    pub tiles: u32,
}

impl From<Result<Verdict, Refusal>> for Told {
    ghost from_gives = { λ outcome answer. answer ≡ told_as outcome };

    fn from(outcome: Result<Verdict, Refusal>) -> Told {
        match outcome {
            Ok(verdict) => Told {
                refusal: 0,
                reached: u32::from(verdict.reached),
                tiles: verdict.tiles,
            },
            Err(refusal) => Told {
                refusal: u32::from(refusal),
                reached: 0,
                tiles: 0,
            },
        }
    }
}

// A search and the threshold that the score is held against. What `check_threshold` finds of the workspace is not part of it.
#[derive(Clone, Copy)]
struct Question<'a> {
    search: Search<'a>,
    threshold: u32,
    ghost in_range: { threshold ≤ 1000 },
}

// The fewest covered words, of sequences with total words together, that score at least the threshold.
fn words_for(threshold: u32, total: usize) -> usize
    requires { (threshold ≤ 1000) × (total ≤ 4096) }
    ensures { result ≡ words_for threshold total }
{
    let score = threshold as usize;
    if total == 0 {
        return score;
    }
    (score * total).div_ceil(2000)
}

impl<'a> Question<'a> {
    // The goal of a comparison that is for the threshold alone.
    fn goal(&self) -> Goal
        ensures { result ≡ goal_for self.now.threshold (length self.now.search.pair.first.now + length self.now.search.pair.second.now) }
    {
        let pair = self.search.pair;
        let words = words_for(self.threshold, pair.first.len() + pair.second.len());
        Goal {
            listed: false,
            enough: words,
            needed: words,
        }
    }
}

// Lays tiles until it is told, and clears the workspace.
fn tell(question: Question<'_>, workspace: &mut [u32]) -> Verdict
    requires { 4 * (length question.search.pair.first.now + length question.search.pair.second.now) ≤ length workspace.old }
    ensures value { told_as (Ok result) ≡ told_answer 0 question.entry.search.pair.first.now question.entry.search.pair.second.now question.entry.search.pair.minimum question.entry.threshold }
    ensures workspace_after { workspace.new ≡ replicate (length workspace.old) 0 }
{
    let goal = question.goal();
    let mut none = [0u32; 1];
    let sum = search::lay(question.search, goal, workspace, &mut none);
    ends::clear(workspace);
    Verdict {
        reached: goal.enough <= sum.covered,
        tiles: sum.count as u32,
    }
}

// The checks: those of the search, of the workspace, and then of the threshold.
fn check_threshold<'a>(
    first: &'a [u32],
    second: &'a [u32],
    minimum: u32,
    threshold: u32,
    settings: Settings,
    workspace: usize,
) -> Result<Question<'a>, Refusal>
    ensures checked { numbered result ≡ threshold_refusal first.now second.now minimum settings.buckets settings.start threshold workspace }
    ensures same { IfOk result (λ question. (question.search.pair.first.now ≡ first.now) × (question.search.pair.second.now ≡ second.now) × (question.search.pair.minimum ≡ minimum) × (question.search.settings ≡ settings) × (question.threshold ≡ threshold)) }
{
    let search = search::check_search(first, second, minimum, settings)?;
    checks::check_workspace(first, second, workspace)?;
    if 1000 < threshold {
        return Err(Refusal::Threshold);
    }
    Ok(Question { search, threshold })
}

// Whether a comparison of two sequences, by a search that is set as given, would score at least the threshold. It lays tiles
// until that is told, and answers how many: the fewest, 0 included, after which what they cover scores at least the threshold,
// or less even with the pattern's free stretches of at least the minimum added; else all. No tile is listed, and the whole
// workspace is zero. Refused: as the comparison, but for the tile buffer, then `Threshold` for one above 1,000; the workspace
// is then as it was.
pub fn at_least(
    first: &[u32],
    second: &[u32],
    minimum: u32,
    threshold: u32,
    settings: Settings,
    workspace: &mut [u32],
) -> Result<Verdict, Refusal>
    ensures { AtLeast first.now second.now minimum settings.buckets settings.start threshold workspace.old (told_as result) workspace.new }
{
    let question = check_threshold(first, second, minimum, threshold, settings, workspace.len())?;
    Ok(tell(question, workspace))
}
