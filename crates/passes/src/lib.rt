// The passes of the search, at falling search lengths, each with an index of its own. Where the pattern has many kinds of words
// one pass, at the minimum, is all.
#![tactic(auto)]

ghost use Rattle.std.specs.Prelude.{◌≡◌, false, ◌≤◌, ◌<◌};
ghost use Rattle.tiling.specs.Tiling.{best};
ghost use Rattle.bounds.specs.Workspace.{state};
ghost use Rattle.sweep.specs.Goal.{at_goal};
ghost use Rattle.sweep.specs.Progress.{Fits, Finished};
ghost use Rattle.passes.specs.Passing.{AtLength};

use bounds::View;
use index::{Index, Pass};
use rows::Finder;
use sweep::Totals;

// The same pass at another search length.
fn at_length(pass: Pass, s: usize) -> Pass
    requires { (1 ≤ s) × (s ≤ 2048) × (pass.job.minimum ≤ s) }
    ensures { AtLength pass s result }
{
    Pass::new(pass.job, s, pass.multiplier, pass.buckets)
}

// A pass: every tile of at least s words is laid, until the goal. At first every head is past the text, nothing has an entry, and no row is
// remembered. The tables are filled where they stand, since a value made elsewhere would be copied. `Fits` is asked by each function here,
// since it is of what is lent to be written.
fn one_pass(ws: &mut [u32], pass: Pass, tiles: &mut [u32], totals: Totals) -> Totals
    requires { Fits pass.job ws.old tiles.old totals }
    ensures { Finished pass.job pass.s ws.old tiles.old totals ws.new tiles.new result }
{
    let mut finder = Finder {
        index: Index {
            pass,
            heads: [0; 1024],
            filter: [0; 4096],
        },
        last: [0; 1024],
    };
    finder.index.heads.fill(2048);
    finder.last.fill(2048);
    finder.index.build(ws);
    levels::lay_all(&mut finder, ws, pass.job, tiles, totals)
}

// The passes after the one given, which is over, down to the minimum, as long as the pattern has a stretch that could be a tile, until
// the goal.
fn later_passes(ws: &mut [u32], pass: Pass, tiles: &mut [u32], totals: Totals) -> Totals
    requires { Fits pass.job ws.old tiles.old totals × (at_goal totals ≡ false → (best (state pass.job ws.old)).len < pass.s) }
    ensures { Finished pass.job pass.job.minimum ws.old tiles.old totals ws.new tiles.new result }
{
    let mut sum = totals;
    let mut now = pass;
    let job = pass.job;
    let mut stretch = lengths::left_of(&View { job, words: ws }, pass.s);
    while now.job.minimum <= stretch && !sweep::at_goal(sum) {
        let s = lengths::next_length(now.job, now.s, stretch, sum.covered);
        now = at_length(now, s);
        sum = one_pass(ws, now, tiles, sum);
        let job = now.job;
        stretch = lengths::left_of(&View { job, words: ws }, now.s);
    }
    sum
}

// Lays every tile of at least the minimum, from the state that the workspace holds, by passes of falling search lengths, until the
// goal: where it is reached at once, nothing is looked at. The pass given says where to begin if windows of the minimum length are
// too much alike.
pub fn tile_all(ws: &mut [u32], pass: Pass, tiles: &mut [u32], totals: Totals) -> Totals
    requires { Fits pass.job ws.old tiles.old totals }
    ensures { Finished pass.job pass.job.minimum ws.old tiles.old totals ws.new tiles.new result }
{
    if sweep::at_goal(totals) {
        return totals;
    }
    let job = pass.job;
    let s = lengths::first_length(&View { job, words: ws }, pass.multiplier, pass.s);
    let first = at_length(pass, s);
    let sum = one_pass(ws, first, tiles, totals);
    later_passes(ws, first, tiles, sum)
}
