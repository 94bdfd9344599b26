// The functions that Rust and C call. A slice is passed as a pointer and then a length. Each only hands on to the crate that
// has the work, and none asks anything of its caller: what cannot be done is refused by its number.
#![tactic(auto)]

ghost use Rattle.std.specs.Prelude.{◌≡◌, length};
ghost use Rattle.symbol.specs.Word.{replaced, matches};
ghost use Rattle.symbol.specs.Sequence.{all_sound};
ghost use Rattle.record.specs.Reading.{read_answer, read_buffer};
ghost use Rattle.record.specs.Writing.{write_answer, write_buffer};
ghost use Rattle.merge.specs.Merging.{merge_answer, merge_buffer};
ghost use Rattle.window.specs.HashList.{hash_answer, hash_buffer};
ghost use Rattle.plain.specs.Promise.{Plain};
ghost use Rattle.search.specs.Promise.{Fast};
ghost use Rattle.cover.specs.Promise.{EveryMinimum};
ghost use Rattle.threshold.specs.Promise.{AtLeast};

use record::ReadAnswer;
use refusal::Counted;
use search::Settings;
use threshold::Told;
use tiling::Compared;

// The word as it is compared and hashed: a call of a retired code, 65,000 to 65,015, becomes a call of the code that this stands
// for, and any other word is itself.
#[unsafe(no_mangle)]
pub extern "C" fn sigxume_replaced(word: u32) -> u32
    ensures { result ≡ replaced word }
{
    symbol::replaced(word)
}

// Whether two words match: both are calls, and their codes are equal once retired ones are replaced. It is decided without a
// branch.
#[unsafe(no_mangle)]
pub extern "C" fn sigxume_match(a: u32, b: u32) -> bool
    ensures { result ≡ matches a b }
{
    symbol::words_match(a, b)
}

// Whether each word is a call or the no-call.
#[unsafe(no_mangle)]
pub extern "C" fn sigxume_sound(words: &[u32]) -> bool
    ensures { result ≡ all_sound words.now }
{
    symbol::all_sound(words)
}

// Reads the record that src starts with; its sequence goes to the start of buffer. Refused: 8, 9, 2, 10, 11.
#[unsafe(no_mangle)]
pub extern "C" fn sigxume_read(src: &[u32], buffer: &mut [u32]) -> ReadAnswer
    ensures value { result ≡ read_answer src.now (length buffer.old) }
    ensures buffer_after { buffer.new ≡ read_buffer src.now buffer.old }
{
    ReadAnswer::from(record::read(src, buffer))
}

// Writes the record of an id and a sequence to the start of buffer. Refused: 1, 2, 11.
#[unsafe(no_mangle)]
pub extern "C" fn sigxume_write(id: u16, sequence: &[u32], buffer: &mut [u32]) -> Counted
    ensures value { result ≡ write_answer sequence.now (length buffer.old) }
    ensures buffer_after { buffer.new ≡ write_buffer id sequence.now buffer.old }
{
    Counted::from(record::write(id, sequence, buffer))
}

// Merges the records that first and second start with, two typings of one fish, word by word to the start of buffer: the first's
// word where they match, the other's where one is the no-call, else the no-call. Refused: 8, 9, 8, 2, 10 of the first, then of the
// second; 13, 14, 11.
#[unsafe(no_mangle)]
pub extern "C" fn sigxume_merge(first: &[u32], second: &[u32], buffer: &mut [u32]) -> Counted
    ensures value { result ≡ merge_answer first.now second.now (length buffer.old) }
    ensures buffer_after { buffer.new ≡ merge_buffer first.now second.now buffer.old }
{
    Counted::from(merge::merge(first, second, buffer))
}

// Fills the start of buffer with the hash of each window, of replaced words, for a multiplier and a window length. Refused: 1, 2,
// 5, 11.
#[unsafe(no_mangle)]
pub extern "C" fn sigxume_hash_list(
    words: &[u32],
    multiplier: u32,
    window: u32,
    buffer: &mut [u32],
) -> Counted
    ensures value { result ≡ hash_answer words.now window (length buffer.old) }
    ensures buffer_after { buffer.new ≡ hash_buffer words.now multiplier window buffer.old }
{
    Counted::from(window::hash_list(words, multiplier, window, buffer))
}

// Compares two sequences by greedy string tiling, without a hash. The tiles go to the start of the tile buffer, and the whole
// workspace is zero after it. Refused: 1, 2, 3, 6, 7.
#[unsafe(no_mangle)]
pub extern "C" fn sigxume_compare_plain(
    first: &[u32],
    second: &[u32],
    minimum: u32,
    workspace: &mut [u32],
    tiles: &mut [u32],
) -> Compared
    ensures { Plain first.now second.now minimum workspace.old tiles.old result workspace.new tiles.new }
{
    Compared::from(plain::compare(first, second, minimum, workspace, tiles))
}

// The same by Running Karp-Rabin, for any multiplier, bucket count and first search length. Refused: 1 to 7.
#[unsafe(no_mangle)]
pub extern "C" fn sigxume_compare_fast(
    first: &[u32],
    second: &[u32],
    minimum: u32,
    multiplier: u32,
    buckets: u32,
    start: u32,
    workspace: &mut [u32],
    tiles: &mut [u32],
) -> Compared
    ensures { Fast first.now second.now minimum buckets start workspace.old tiles.old result workspace.new tiles.new }
{
    let settings = Settings {
        multiplier,
        buckets,
        start,
    };
    Compared::from(search::compare(first, second, minimum, settings, workspace, tiles))
}

// What two sequences cover at every minimum: compares them at minimum 1 by Running Karp-Rabin, and fills entry k of cover, from 0
// to 255, with what the tiles at minimum k + 1 cover. Refused: 1, 2, 4 to 7, 11.
#[unsafe(no_mangle)]
pub extern "C" fn sigxume_cover_fast(
    first: &[u32],
    second: &[u32],
    multiplier: u32,
    buckets: u32,
    start: u32,
    workspace: &mut [u32],
    tiles: &mut [u32],
    cover: &mut [u32],
) -> Compared
    ensures { EveryMinimum first.now second.now buckets start workspace.old tiles.old cover.old result workspace.new tiles.new cover.new }
{
    let settings = Settings {
        multiplier,
        buckets,
        start,
    };
    Compared::from(cover::every_minimum(first, second, settings, workspace, tiles, cover))
}

// Whether a comparison by Running Karp-Rabin would score at least the threshold, 1 or 0, and how many tiles it takes to tell: the
// fewest, 0 included, after which what they cover scores so much, or cannot any more; else all. No tile is listed, and the whole
// workspace is zero after it. Refused: 1 to 6, 12.
#[unsafe(no_mangle)]
pub extern "C" fn sigxume_at_least_fast(
    first: &[u32],
    second: &[u32],
    minimum: u32,
    threshold: u32,
    multiplier: u32,
    buckets: u32,
    start: u32,
    workspace: &mut [u32],
) -> Told
    ensures { AtLeast first.now second.now minimum buckets start threshold workspace.old result workspace.new }
{
    let settings = Settings {
        multiplier,
        buckets,
        start,
    };
    Told::from(threshold::at_least(first, second, minimum, threshold, settings, workspace))
}
