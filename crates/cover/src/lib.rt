// What two sequences cover at every minimum, from one comparison at minimum 1. The tiles at a greater minimum are the first ones at
// a smaller, so that one walk along the tile buffer gives all of them.
#![tactic(auto)]

ghost use Rattle.std.specs.Prelude.{◌≡◌, ◌*◌, ◌≤◌, length, IfOk};
ghost use Rattle.refusal.specs.Number.{numbered};
ghost use Rattle.buffer.specs.Buffer.{onto, tabulate};
ghost use Rattle.tiling.specs.Listing.{covered};
ghost use Rattle.tiling.specs.Demand.{tiles_in};
ghost use Rattle.tiling.specs.Outcome.{compared_as};
ghost use Rattle.cover.specs.Promise.{cover_refusal, EveryMinimum};
ghost use Rattle.cover.specs.Walked.{first_long, cover_of, Walked};

use refusal::Refusal;
use search::{Search, Settings};
use tiling::Summary;

// How far a walk along the tiles has come: how many it has passed, and how many words they cover.
#[derive(Clone, Copy)]
struct Walk {
    passed: usize,
    words: u32,
}

// Passes the next tiles, of the first count of a tile buffer, that have at least so many words. The answer counts them: of a slice that ends
// with the last one each clause would have to take a third of the length.
fn pass_long(tiles: &[u32], count: usize, least: u32, walk: Walk) -> Walk
    requires count_in_bounds { (3 * count ≤ length tiles.now) × (covered (tiles_in count tiles.now) ≤ 2048) }
    requires walked { Walked (tiles_in count tiles.now) least walk.passed walk.words }
    ensures walked_on { Walked (tiles_in count tiles.now) least result.passed result.words }
    ensures words_covered { result.words ≡ covered (first_long least (tiles_in count tiles.now)) }
{
    let mut words = walk.words;
    for passed in walk.passed..count {
        let len = tiles[3 * passed + 2];
        if len < least {
            return Walk { passed, words };
        }
        words += len;
    }
    Walk {
        passed: count,
        words,
    }
}

// Fills entry k, from 255 to 0, with what the first tiles that have at least k + 1 words cover.
fn fill(tiles: &[u32], count: usize, cover: &mut [u32])
    requires { (3 * count ≤ length tiles.now) × (covered (tiles_in count tiles.now) ≤ 2048) × (256 ≤ length cover.old) }
    ensures { cover.new ≡ onto (tabulate (cover_of (tiles_in count tiles.now)) 256) cover.old }
{
    let mut walk = Walk {
        passed: 0,
        words: 0,
    };
    for k in (0..256u32).rev() {
        walk = pass_long(tiles, count, k + 1, walk);
        cover[k as usize] = walk.words;
    }
}

// The checks: those of the comparison, and then that there is room for every entry.
fn check_cover<'a>(
    first: &'a [u32],
    second: &'a [u32],
    settings: Settings,
    workspace: usize,
    tiles: usize,
    entries: usize,
) -> Result<Search<'a>, Refusal>
    ensures checked { numbered result ≡ cover_refusal first.now second.now settings.buckets settings.start workspace tiles entries }
    ensures same { IfOk result (λ search. (search.pair.first.now ≡ first.now) × (search.pair.second.now ≡ second.now) × (search.pair.minimum ≡ 1) × (search.settings ≡ settings)) }
{
    let search = search::check_fast(first, second, 1, settings, workspace, tiles)?;
    if entries < 256 {
        return Err(Refusal::Room);
    }
    Ok(search)
}

// Compares two sequences at minimum 1, by a search that is set as given, and fills entry k of cover, from 0 to 255, with what
// the tiles at minimum k + 1 cover; its other words keep their values. The answer, the tiles and the workspace are those of
// the comparison. Refused: as the comparison at minimum 1, then `Room` for fewer than 256 words of cover; workspace, tile
// buffer and cover are then as they were.
pub fn every_minimum(
    first: &[u32],
    second: &[u32],
    settings: Settings,
    workspace: &mut [u32],
    tiles: &mut [u32],
    cover: &mut [u32],
) -> Result<Summary, Refusal>
    ensures { EveryMinimum first.now second.now settings.buckets settings.start workspace.old tiles.old cover.old (compared_as result) workspace.new tiles.new cover.new }
{
    let search = check_cover(
        first,
        second,
        settings,
        workspace.len(),
        tiles.len(),
        cover.len(),
    )?;
    let sum = search::compare_accepted(search, workspace, tiles);
    fill(tiles, sum.tiles as usize, cover);
    Ok(sum)
}
