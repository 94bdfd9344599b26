// What both engines do with words and tiles: marking, listing, scoring.
#![tactic(auto)]

ghost use Rattle.std.specs.Prelude.{◌≡◌, [], ◌∷◌, ◌++◌, ℕ, ◌+◌, ◌*◌, ◌≤◌, ◌<◌, length, take, drop};
ghost use Rattle.buffer.specs.Buffer.{onto};
ghost use Rattle.tiling.specs.Run.{mark};
ghost use Rattle.tiling.specs.Listing.{tile_words, score, shift};
ghost use Rattle.tile.specs.Listed.{listed};

// A position on the pattern, and one on the text. They count from separate zeros, so they are of two types. That one lies within its
// sequence is asked where it is used, like the range of a length or a number: a type that said so would be of one comparison alone, and
// each step to the next position would have to make such a value anew.
#[derive(Clone, Copy)]
pub struct PatternAt(pub usize);

#[derive(Clone, Copy)]
pub struct TextAt(pub usize);

// A tile: where it begins on the pattern and on the text, and how many words it has.
#[derive(Clone, Copy)]
pub struct Tile {
    pub p: PatternAt,
    pub t: TextAt,
    pub len: usize,
}

// Marks len words from position at on.
pub fn mark_words(words: &mut [u32], at: usize, len: usize)
    requires { at + len ≤ length words.old }
    ensures { words.new ≡ mark at len words.old }
{
    words[at..at + len].fill(0);
}

// Writes the three words of a tile to the start of what is left of the tile buffer, which C lends as words.
fn write_tile(tail: &mut [u32], first: u32, second: u32, len: u32)
    requires { 3 ≤ length tail.old }
    ensures { tail.new ≡ onto (first ∷ second ∷ len ∷ []) tail.old }
{
    tail[..3].copy_from_slice(&[first, second, len]);
}

// Lists a tile after the count tiles that are listed already. The pattern is the first sequence where straight is true,
// else the second.
pub fn list_tile(tiles: &mut [u32], count: usize, straight: bool, tile: Tile)
    requires { (3 * (count + 1) ≤ length tiles.old) × (tile.p.0 ≤ 2048) × (tile.t.0 ≤ 2048) × (tile.len ≤ 2048) × (count ≤ 2048) }
    ensures { tiles.new ≡ take (3 * count) tiles.old ++ onto (tile_words (listed straight (record { p = tile.p.0; t = tile.t.0; len = tile.len }) ∷ [])) (drop (3 * count) tiles.old) }
{
    let from = 3 * count;
    let on_pattern = tile.p.0 as u32;
    let on_text = tile.t.0 as u32;
    let len = tile.len as u32;
    if straight {
        write_tile(&mut tiles[from..], on_pattern, on_text, len);
    } else {
        write_tile(&mut tiles[from..], on_text, on_pattern, len);
    }
}

// The shift of a tile: its second start minus its first.
pub fn shift(first: u32, second: u32) -> i32
    requires { (first < 2048) × (second < 2048) }
    ensures { (len : ℕ) → result ≡ shift (record { first = first; second = second; len = len }) }
{
    (second as i32) - (first as i32)
}

// The score of what is covered, of two sequences with total words together.
pub fn score_of(covered: usize, total: usize) -> u32
    requires { (covered ≤ 2048) × (total ≤ 4096) }
    ensures { result ≡ score covered total }
{
    if total == 0 {
        return 0;
    }
    (2000 * covered / total) as u32
}
