// The fast engine, Running Karp-Rabin: its settings, its checks, and its passes between the two ends of a comparison.
#![tactic(auto)]

ghost use Rattle.std.specs.Prelude.{◌≡◌, length, Ok, IfOk};
ghost use Rattle.refusal.specs.Number.{numbered};
ghost use Rattle.tiling.specs.Comparing.{search_checks, fast_refusal, InRange, Roomy};
ghost use Rattle.tiling.specs.Outcome.{compared_as};
ghost use Rattle.tiling.specs.Answer.{Compares};
ghost use Rattle.ends.specs.Result.{Room, Ran};
ghost use Rattle.search.specs.Promise.{Fast};

use checks::Pair;
use index::Pass;
use refusal::Refusal;
use sweep::{Goal, Totals};
use tiling::Summary;

// How the search is set: the multiplier of its hashes, which may be any, its bucket count, and its first search length.
#[derive(Clone, Copy)]
pub struct Settings {
    pub multiplier: u32,
    pub buckets: u32,
    pub start: u32,
}

// Two sequences that can be compared, and settings that are in range for their minimum: no cause of `check_search` holds.
#[derive(Clone, Copy)]
pub struct Search<'a> {
    pub pair: Pair<'a>,
    pub settings: Settings,
    pub ghost in_range: { InRange pair.minimum settings.buckets settings.start },
}

// The checks of sequences, minimum and settings that any service makes that compares.
pub fn check_search<'a>(
    first: &'a [u32],
    second: &'a [u32],
    minimum: u32,
    settings: Settings,
) -> Result<Search<'a>, Refusal>
    ensures checked { numbered result ≡ search_checks first.now second.now minimum settings.buckets settings.start 0 }
    ensures same { IfOk result (λ search. (search.pair.first.now ≡ first.now) × (search.pair.second.now ≡ second.now) × (search.pair.minimum ≡ minimum) × (search.settings ≡ settings)) }
{
    let pair = checks::check_pair(first, second, minimum)?;
    checks::check_settings(minimum, settings.buckets, settings.start)?;
    Ok(Search { pair, settings })
}

// The checks of a comparison.
pub fn check_fast<'a>(
    first: &'a [u32],
    second: &'a [u32],
    minimum: u32,
    settings: Settings,
    workspace: usize,
    tiles: usize,
) -> Result<Search<'a>, Refusal>
    ensures checked { numbered result ≡ fast_refusal first.now second.now minimum settings.buckets settings.start workspace tiles }
    ensures same { IfOk result (λ search. (search.pair.first.now ≡ first.now) × (search.pair.second.now ≡ second.now) × (search.pair.minimum ≡ minimum) × (search.settings ≡ settings)) }
{
    let search = check_search(first, second, minimum, settings)?;
    checks::check_room(search.pair, workspace, tiles)?;
    Ok(search)
}

// Lays the tiles of two sequences for which no cause of a refusal holds, until a goal.
pub fn lay(search: Search<'_>, goal: Goal, workspace: &mut [u32], tiles: &mut [u32]) -> Totals
    requires { Room (length search.pair.first.now) (length search.pair.second.now) search.pair.minimum goal (length workspace.old) (length tiles.old) }
    ensures { Ran search.entry.pair.first.now search.entry.pair.second.now search.entry.pair.minimum goal tiles.old tiles.new result }
{
    let pair = search.pair;
    let settings = search.settings;
    let job = ends::open(pair.first, pair.second, pair.minimum as usize, workspace);
    let pass = Pass::new(
        job,
        settings.start as usize,
        settings.multiplier,
        settings.buckets as usize,
    );
    passes::tile_all(workspace, pass, tiles, ends::unlaid(job, goal))
}

// Compares two sequences for which no cause of a refusal holds.
pub fn compare_accepted(search: Search<'_>, workspace: &mut [u32], tiles: &mut [u32]) -> Summary
    requires { Roomy (length search.pair.first.now) (length search.pair.second.now) search.pair.minimum (length workspace.old) (length tiles.old) }
    ensures { Compares 0 search.entry.pair.first.now search.entry.pair.second.now search.entry.pair.minimum workspace.old tiles.old (compared_as (Ok result)) workspace.new tiles.new }
{
    let sum = lay(search, ends::whole(), workspace, tiles);
    ends::close(
        workspace,
        search.pair.first.len() + search.pair.second.len(),
        sum,
    )
}

// Compares two sequences by greedy string tiling with a minimum length of tiles, by a search that is set as given. The answer,
// the tiles and what is left of workspace and tile buffer are those of the plain engine, whatever settings in range are given.
// Refused: `TooLong` for more than 2,048 words, `Unsound` for an unsound word, `Minimum` for one outside 1 to 256, `Buckets`
// for a bucket count outside 1 to 1,024, `SearchLength` for a first search length below the minimum or above 2,048,
// `Workspace` for one of fewer than 4 words for each word of both sequences, `Tiles` for a tile buffer too short; workspace
// and tile buffer are then as they were.
pub fn compare(
    first: &[u32],
    second: &[u32],
    minimum: u32,
    settings: Settings,
    workspace: &mut [u32],
    tiles: &mut [u32],
) -> Result<Summary, Refusal>
    ensures { Fast first.now second.now minimum settings.buckets settings.start workspace.old tiles.old (compared_as result) workspace.new tiles.new }
{
    let search = check_fast(
        first,
        second,
        minimum,
        settings,
        workspace.len(),
        tiles.len(),
    )?;
    Ok(compare_accepted(search, workspace, tiles))
}
