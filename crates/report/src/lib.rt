// The pair program's report: from the bytes of its input to the bytes of its output.
#![tactic(auto)]

ghost use Rattle.std.specs.Prelude.{◌≡◌, List, [], ◌∷◌, ℕ, ◌+◌, ◌*◌, ◌≤◌, ◌<◌, max, length, take};
ghost use Rattle.io.specs.Counts.{IsPrefixLen};
ghost use Rattle.refusal.specs.Number.{number};
ghost use Rattle.buffer.specs.Buffer.{onto};
ghost use Rattle.tiling.specs.Each.{Each};
ghost use Rattle.tiling.specs.Demand.{tiles_in};
ghost use Rattle.tiling.specs.Outcome.{compared_as};
ghost use Rattle.lines.specs.Text.{decimal, phrase};
ghost use Rattle.lines.specs.Appended.{Appended};
ghost use Rattle.report.specs.Words.{words_of, word_at};
ghost use Rattle.report.specs.Pair.{refused_line, shift_end, tile_line, tile_lines, opening, closing, pair_lines, from_pair, from_second, from_first, from_words, pair_report};
ghost use Rattle.report.specs.Buffers.{input_bytes, report_bytes, ReadFrom};
ghost use Rattle.report.specs.Written.{Written, Read, Starts, Laid, Searched};

use record::Found;
use refusal::Refusal;
use search::Settings;
use tiling::Summary;

// As many words of the input as can matter.
const INPUT_WORDS: usize = 1 + 2 * 2050;

// Lengths for report's two buffers that are enough for every input. Its contract asks for the same numbers, so that a wrong
// one here is refused, at the latest where the buffers are lent.
pub const INPUT_BYTES: usize = 4 * INPUT_WORDS;

pub const REPORT_BYTES: usize = 63 + 2048 * 45 + 61;

// Where a report is written: it has room for every one.
type Page = [u8; REPORT_BYTES];

// The word of number i: four bytes, lowest first.
fn word_at(bytes: &[u8], i: usize) -> u32
    requires { 4 * i + 3 < length bytes.now }
    ensures { result ≡ word_at bytes.now i }
{
    let at = 4 * i;
    u32::from_le_bytes([bytes[at], bytes[at + 1], bytes[at + 2], bytes[at + 3]])
}

// Stores the words of bytes to the start of a buffer, as many as it holds, and answers how many.
fn store_words(bytes: &[u8], words: &mut [u32]) -> usize
    ensures value { result ≡ length (take (length words.old) (words_of bytes.now)) }
    ensures words_after { words.new ≡ onto (take (length words.old) (words_of bytes.now)) words.old }
{
    let count = words.len().min(bytes.len() / 4);
    for i in 0..count {
        words[i] = word_at(bytes, i);
    }
    count
}

// Writes the line of a refusal.
fn refused_line(out: &mut Page, refusal: Refusal) -> usize
    ensures { Written (refused_line (number refusal)) out.old result out.new }
{
    lines::line(out, 0, b"REFUSED", &[u32::from(refusal)])
}

// Writes the lines before the tiles.
fn opening_lines(out: &mut [u8], a: u32, b: u32, minimum: u32, tiles: u32) -> usize
    requires { 63 ≤ length out.old }
    ensures { Appended 63 (opening a b minimum tiles) 0 out.old result out.new }
{
    let ids = lines::line(out, 0, b"FISH", &[a, b]);
    let least = lines::line(out, ids, b"MINIMUM", &[minimum]);
    lines::line(out, least, b"TILES", &[tiles])
}

// Writes where a tile lies and its length.
fn tile_place(out: &mut [u8], at: usize, first: u32, second: u32, len: u32) -> usize
    requires { at + 32 ≤ length out.old }
    ensures { Appended 32 (phrase (decimal first) (second ∷ len ∷ [])) at out.old result out.new }
{
    let start = lines::number(out, at, first);
    lines::spaced_numbers(out, start, &[second, len])
}

// Writes a tile's shift and ends its line.
fn tile_shift(out: &mut [u8], at: usize, shift: i32) -> usize
    requires { at + 13 ≤ length out.old }
    ensures { Appended 13 (shift_end shift) at out.old result out.new }
{
    let space = lines::append(out, at, b" ");
    let end = lines::signed_number(out, space, shift);
    lines::append(out, end, b"\n")
}

// Writes the line of a tile.
fn tile_line(out: &mut [u8], at: usize, first: u32, second: u32, len: u32) -> usize
    requires { (at + 45 ≤ length out.old) × (first < 2048) × (second < 2048) }
    ensures { Appended 45 (tile_line (record { first = first; second = second; len = len })) at out.old result out.new }
{
    let place = tile_place(out, at, first, second, len);
    tile_shift(out, place, tile::shift(first, second))
}

// Writes the lines of the first count tiles of a tile buffer. The answer counts them: of a slice that ends with the last one each clause
// would have to take a third of the length.
fn tile_lines(out: &mut [u8], at: usize, tiles: &[u32], count: usize) -> usize
    requires { (at + 45 * count ≤ length out.old) × (3 * count ≤ length tiles.now) × Each Starts (tiles_in count tiles.now) }
    ensures { Appended (45 * count) (tile_lines (tiles_in count tiles.now)) at out.old result out.new }
{
    let mut end = at;
    for tile in tiles[..3 * count].chunks_exact(3) {
        end = tile_line(out, end, tile[0], tile[1], tile[2]);
    }
    end
}

// Writes the lines after the tiles.
fn closing_lines(out: &mut [u8], at: usize, sum: u32, n: u32, m: u32, points: u32) -> usize
    requires { at + 61 ≤ length out.old }
    ensures { Appended 61 (closing sum n m points) at out.old result out.new }
{
    let begun = lines::phrase(out, at, b"COVERED", &[sum]);
    let of = lines::line(out, begun, b" OF", &[n, m]);
    lines::line(out, of, b"SCORE", &[points])
}

// A fish: its id and the words of its sequence.
#[derive(Clone, Copy)]
struct Fish<'a> {
    id: u32,
    words: &'a [u32],
    ghost few: { length words.now ≤ 2048 },
}

// Writes the report of an accepted comparison, whose tiles are in the tile buffer.
fn pair_lines(
    out: &mut Page,
    first: Fish<'_>,
    second: Fish<'_>,
    minimum: u32,
    sum: Summary,
    tiles: &[u32],
) -> usize
    requires { Laid (length first.words.now) (length second.words.now) (compared_as (Ok sum)) tiles.now }
    ensures { Written (pair_lines first.entry.id second.entry.id minimum (length first.entry.words.now) (length second.entry.words.now) (tiles_in sum.tiles tiles.now)) out.old result out.new }
{
    let opened = opening_lines(out, first.id, second.id, minimum, sum.tiles);
    let listed = tile_lines(out, opened, tiles, sum.tiles as usize);
    let n = first.words.len() as u32;
    let m = second.words.len() as u32;
    closing_lines(out, listed, sum.covered, n, m, sum.score)
}

// The first search length: 20, or the minimum if larger.
fn search_length(minimum: u32) -> u32
    ensures { result ≡ max 20 minimum }
{
    minimum.max(20)
}

// Compares two sequences by the search, with the program's settings: multiplier 257 and 256 buckets. The tiles go to the
// start of the tile buffer. Workspace and tile buffer are as long as two sequences of 2,048 words can ask.
fn search_pair(
    first: Fish<'_>,
    second: Fish<'_>,
    minimum: u32,
    tiles: &mut [u32; 6144],
) -> Result<Summary, Refusal>
    ensures { Searched first.entry.words.now second.entry.words.now minimum (compared_as result) tiles.new }
{
    let mut workspace = [0u32; 16384];
    let settings = Settings {
        multiplier: 257,
        buckets: 256,
        start: search_length(minimum),
    };
    search::compare(
        first.words,
        second.words,
        minimum,
        settings,
        &mut workspace,
        tiles,
    )
}

// Compares two fish and writes the report.
fn compare(out: &mut Page, first: Fish<'_>, second: Fish<'_>, minimum: u32) -> usize
    ensures { Written (from_pair first.entry.id second.entry.id minimum first.entry.words.now second.entry.words.now) out.old result out.new }
{
    let mut tiles = [0u32; 6144];
    match search_pair(first, second, minimum, &mut tiles) {
        Err(refusal) => refused_line(out, refusal),
        Ok(sum) => pair_lines(out, first, second, minimum, sum, &tiles),
    }
}

// Reads a record into a buffer that has room for every sequence.
#[tactic(auto, using(crate::proofs::Records::read_there))]
fn read_record(src: &[u32], buffer: &mut [u32; 2048]) -> Result<Found, Refusal>
    ensures { Read src.now result buffer.new }
{
    record::read(src, buffer)
}

// Reads the second record and goes on to compare.
fn from_second(out: &mut Page, first: Fish<'_>, minimum: u32, src: &[u32]) -> usize
    ensures { Written (from_second first.entry.id minimum first.entry.words.now src.now) out.old result out.new }
{
    let mut words = [0u32; 2048];
    match read_record(src, &mut words) {
        Err(refusal) => refused_line(out, refusal),
        Ok(found) => {
            let count = found.count as usize;
            let second = Fish {
                id: found.id,
                words: &words[..count],
            };
            compare(out, first, second, minimum)
        }
    }
}

// Reads the first record and goes on to the second.
fn from_first(out: &mut Page, minimum: u32, src: &[u32]) -> usize
    ensures { Written (from_first minimum src.now) out.old result out.new }
{
    let mut words = [0u32; 2048];
    match read_record(src, &mut words) {
        Err(refusal) => refused_line(out, refusal),
        Ok(found) => {
            let count = found.count as usize;
            let used = found.used as usize;
            let first = Fish {
                id: found.id,
                words: &words[..count],
            };
            from_second(out, first, minimum, &src[used..])
        }
    }
}

// Takes the minimum word and goes on to the records.
#[tactic(auto, unfolding(crate::specs::Pair::from_words))]
fn from_words(out: &mut Page, words: &[u32]) -> usize
    ensures { Written (from_words words.now) out.old result out.new }
{
    match words.split_first() {
        None => refused_line(out, Refusal::CutOff),
        Some((minimum, src)) => from_first(out, *minimum, src),
    }
}

// Writes the report of the input that is in the first got bytes of its buffer to the start of the output, and answers how
// many bytes it has. Where these bytes were read from a stream, it is also the report of the whole stream: the buffer is long
// enough for all that can matter of one. The buffer is lent whole, and not just these bytes, since `whole_stream` speaks of
// its length too: a stream has ended where less was read than the buffer holds. The last clause is what taking the report out
// of the output asks.
pub fn report(input: &[u8], got: usize, output: &mut [u8]) -> usize
    requires input_bytes_in_bounds { input_bytes ≤ length input.now }
    requires prefix_len { IsPrefixLen got input.now }
    requires report_bytes_in_bounds { report_bytes ≤ length output.old }
    ensures written { Written (pair_report (take got input.now)) output.old result output.new }
    ensures whole_stream { (stream : List ℕ) → ReadFrom stream got input.now → Written (pair_report stream) output.old result output.new }
    ensures within_output { IsPrefixLen result output.new }
{
    let mut words = [0u32; INPUT_WORDS];
    let count = store_words(&input[..got], &mut words);
    let Some(page) = output.first_chunk_mut::<REPORT_BYTES>() else {
        unreachable!()
    };
    from_words(page, &words[..count])
}
