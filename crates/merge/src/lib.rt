// Merges two records of one fish, typed twice, word by word into one record.
#![tactic(auto)]

ghost use Rattle.std.specs.Prelude.{◌≡◌, ◌+◌, ◌≤◌, length};
ghost use Rattle.refusal.specs.Number.{numbered, counted_as};
ghost use Rattle.buffer.specs.Buffer.{onto};
ghost use Rattle.record.specs.Reading.{fault};
ghost use Rattle.merge.specs.Word.{merged_word, merged};
ghost use Rattle.merge.specs.Merging.{pair_refusal, merge_refusal, merged_record, merge_answer, merge_buffer};

use refusal::Refusal;

// What two typings say of one position: the first's word where they match, the other's where one is the no-call, else the no-call.
// Most words are equal calls as they stand, so that is asked first, which spares a look at the table of retired codes.
fn merged_word(a: u32, b: u32) -> u32
    ensures { result ≡ merged_word a b }
{
    if symbol::equal_calls(a, b) {
        return a;
    }
    if symbol::words_match(a, b) {
        return a;
    }
    if symbol::is_no_call(a) {
        return b;
    }
    if symbol::is_no_call(b) {
        return a;
    }
    0x8000_0000
}

// Merges two sequences of one length to the start of a buffer. Words are stored by index: after a `zip` with the buffer's `iter_mut` a
// proof would know the buffer's length and none of its words.
fn merge_words(first: &[u32], second: &[u32], buffer: &mut [u32])
    requires first_len { length first.now ≡ length second.now }
    requires first_in_bounds { length first.now ≤ length buffer.old }
    ensures { buffer.new ≡ onto (merged first.now second.now) buffer.old }
{
    for (i, a) in first.iter().enumerate() {
        buffer[i] = merged_word(*a, second[i]);
    }
}

// Refuses two records that are not of one fish with one count, or do not fit room words.
fn check_pair(first: &[u32], second: &[u32], room: usize) -> Result<(), Refusal>
    requires first_value { fault first.now 0 ≡ 0 }
    requires second_value { fault second.now 0 ≡ 0 }
    ensures { numbered result ≡ pair_refusal first.now second.now room }
{
    if record::id_of(first[0]) != record::id_of(second[0]) {
        return Err(Refusal::Fish);
    }
    let count = record::count_of(first[0]);
    if count != record::count_of(second[0]) {
        return Err(Refusal::Counts);
    }
    if room < count + 2 {
        return Err(Refusal::Room);
    }
    Ok(())
}

// Refuses two slices that cannot be merged into a buffer of room words.
#[tactic(auto, using(record::proofs::Reading::fault_stops, record::proofs::Reading::fault_passed))]
fn check_merge(first: &[u32], second: &[u32], room: usize) -> Result<(), Refusal>
    ensures { numbered result ≡ merge_refusal first.now second.now room }
{
    record::check(first)?;
    record::check(second)?;
    check_pair(first, second, room)
}

// Stores the record of two that can be merged: the header is the first's, each word is merged, and the trailer is its own.
#[tactic(auto, using(crate::proofs::Merging::stored, crate::proofs::Merging::mergeable))]
fn store(first: &[u32], second: &[u32], buffer: &mut [u32])
    requires { merge_refusal first.now second.now (length buffer.old) ≡ 0 }
    ensures { buffer.new ≡ onto (merged_record first.now second.now) buffer.old }
{
    let h = first[0];
    let n = record::count_of(h);
    buffer[0] = h;
    merge_words(&first[1..n + 1], &second[1..n + 1], &mut buffer[1..n + 1]);
    record::close(buffer, n);
}

// Merges the records that first and second start with, two typings of one fish, to the start of buffer, and answers how many words
// it wrote. Refused: what `record::check` refuses of the first, then of the second; Fish for records of different fish, Counts for
// different counts, Room where buffer is too short; buffer is then as it was. Words after a trailer are not looked at.
pub fn merge(first: &[u32], second: &[u32], buffer: &mut [u32]) -> Result<u32, Refusal>
    ensures value { counted_as result ≡ merge_answer first.now second.now (length buffer.old) }
    ensures buffer_after { buffer.new ≡ merge_buffer first.now second.now buffer.old }
{
    check_merge(first, second, buffer.len())?;
    store(first, second, buffer);
    Ok((record::count_of(first[0]) as u32) + 2)
}
