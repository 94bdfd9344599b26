// The checks that come before a comparison, in the order of the refusals that they bring.
#![tactic(auto)]

ghost use Rattle.std.specs.Prelude.{◌≡◌, ◌/◌, ◌≤◌, min, length, IfOk};
ghost use Rattle.refusal.specs.Number.{numbered};
ghost use Rattle.tiling.specs.Comparing.{sequences, minimums, settings, workspaces, room, Comparable};

use refusal::Refusal;

// Two sequences that can be compared at a minimum: no cause of `check_pair` holds.
#[derive(Clone, Copy)]
pub struct Pair<'a> {
    pub first: &'a [u32],
    pub second: &'a [u32],
    pub minimum: u32,
    pub ghost comparable: { Comparable first.now second.now minimum },
}

// The checks of the sequences: none has more than 2,048 words, and no word is unsound.
fn check_sequences(first: &[u32], second: &[u32]) -> Result<(), Refusal>
    ensures { numbered result ≡ sequences first.now second.now 0 }
{
    if 2048 < first.len() {
        return Err(Refusal::TooLong);
    }
    if 2048 < second.len() {
        return Err(Refusal::TooLong);
    }
    if !symbol::all_sound(first) {
        return Err(Refusal::Unsound);
    }
    if !symbol::all_sound(second) {
        return Err(Refusal::Unsound);
    }
    Ok(())
}

// The check of the minimum: it is from 1 to 256.
fn check_minimum(minimum: u32) -> Result<(), Refusal>
    ensures { numbered result ≡ minimums minimum 0 }
{
    if minimum == 0 {
        return Err(Refusal::Minimum);
    }
    if 256 < minimum {
        return Err(Refusal::Minimum);
    }
    Ok(())
}

// The checks that every comparison begins with: of the sequences, then of the minimum.
pub fn check_pair<'a>(
    first: &'a [u32],
    second: &'a [u32],
    minimum: u32,
) -> Result<Pair<'a>, Refusal>
    ensures checked { numbered result ≡ sequences first.now second.now (minimums minimum 0) }
    ensures same { IfOk result (λ pair. (pair.first.now ≡ first.now) × (pair.second.now ≡ second.now) × (pair.minimum ≡ minimum)) }
{
    check_sequences(first, second)?;
    check_minimum(minimum)?;
    Ok(Pair {
        first,
        second,
        minimum,
    })
}

// The checks of the search's settings: a bucket count from 1 to 1,024, and a first search length from the minimum to 2,048.
pub fn check_settings(minimum: u32, buckets: u32, start: u32) -> Result<(), Refusal>
    ensures { numbered result ≡ settings minimum buckets start 0 }
{
    if buckets == 0 {
        return Err(Refusal::Buckets);
    }
    if 1024 < buckets {
        return Err(Refusal::Buckets);
    }
    if start < minimum {
        return Err(Refusal::SearchLength);
    }
    if 2048 < start {
        return Err(Refusal::SearchLength);
    }
    Ok(())
}

// How many tiles there can be: the shorter length divided by the minimum, rounded down.
fn most_tiles(n: usize, m: usize, minimum: usize) -> usize
    requires { (n ≤ 2048) × (m ≤ 2048) × (1 ≤ minimum) }
    ensures { (result ≡ min n m / minimum) × (result ≤ 2048) }
{
    n.min(m) / minimum
}

// The check of the workspace: it is not too short.
pub fn check_workspace(first: &[u32], second: &[u32], workspace: usize) -> Result<(), Refusal>
    requires { (length first.now ≤ 2048) × (length second.now ≤ 2048) }
    ensures { numbered result ≡ workspaces (length first.now) (length second.now) workspace 0 }
{
    if workspace < 4 * (first.len() + second.len()) {
        return Err(Refusal::Workspace);
    }
    Ok(())
}

// The checks of the room: of the workspace, and then that the tile buffer is not too short.
pub fn check_room(pair: Pair<'_>, workspace: usize, tiles: usize) -> Result<(), Refusal>
    ensures { numbered result ≡ room (length pair.entry.first.now) (length pair.entry.second.now) pair.entry.minimum workspace tiles 0 }
{
    check_workspace(pair.first, pair.second, workspace)?;
    if tiles < 3 * most_tiles(pair.first.len(), pair.second.len(), pair.minimum as usize) {
        return Err(Refusal::Tiles);
    }
    Ok(())
}
