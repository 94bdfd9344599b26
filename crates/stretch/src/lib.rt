// The free words of the pattern that further tiles may take: those in stretches of at least the minimum. A tile changes one
// stretch, and how many they are is kept from tile to tile by a look at its two sides.
#![tactic(auto)]

ghost use Rattle.std.specs.Prelude.{◌≡◌, ◌+◌, ◌≤◌, ◌<◌, min, length};
ghost use Rattle.tiling.specs.Run.{mark};
ghost use Rattle.tiling.specs.Stretch.{if_long, fillable, free_first};
ghost use Rattle.stretch.specs.Sides.{free_last, if_short, OnFree};

// How many free words a part of a sequence begins with, `most` at the most.
fn free_first(words: &[u32], most: usize) -> usize
    ensures { result ≡ min most (free_first words.now) }
{
    let n = most.min(words.len());
    words[..n].iter().take_while(|w| **w != 0).count()
}

// How many it ends with, `most` at the most.
fn free_last(words: &[u32], most: usize) -> usize
    ensures { result ≡ min most (free_last 0 words.now) }
{
    let n = words.len();
    words[n - most.min(n)..]
        .iter()
        .rev()
        .take_while(|w| **w != 0)
        .count()
}

// The words of a stretch that is too short for a tile; 0 where it is not.
fn if_short(len: usize, minimum: usize) -> usize
    ensures { result ≡ if_short minimum len }
{
    if minimum <= len {
        return 0;
    }
    len
}

// How many words further tiles may take of a sequence of n words that are all free.
pub fn if_long(n: usize, minimum: usize) -> usize
    ensures { result ≡ if_long minimum n }
{
    if minimum <= n {
        return n;
    }
    0
}

// How many fewer words further tiles may take of the pattern after one of len words at p: its own, and those of what is left of its
// stretch on either side, where that is too short.
pub fn taken(pattern: &[u32], minimum: usize, p: usize, len: usize) -> usize
    requires { OnFree minimum p len pattern.now × (length pattern.now ≤ 2048) }
    ensures { result + fillable minimum (mark p len pattern.now) ≡ fillable minimum pattern.now }
{
    let end = p + len;
    let n = pattern.len();
    let before = free_last(&pattern[0..p], minimum);
    let after = free_first(&pattern[end..n], minimum);
    len + if_short(before, minimum) + if_short(after, minimum)
}
