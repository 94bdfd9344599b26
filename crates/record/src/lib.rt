// Reads and writes records: a header with id and count, a sequence, a trailer with a checksum.
#![tactic(auto)]

ghost use Rattle.std.specs.Prelude.{◌≡◌, ◌+◌, ◌^◌, ◌≤◌, ◌<◌, length, take, set, [], ◌∷◌, ◌++◌};
ghost use Rattle.refusal.specs.Number.{numbered, counted_as};
ghost use Rattle.buffer.specs.Buffer.{onto};
ghost use Rattle.record.specs.Format.{header, id_of, count_of, trailer};
ghost use Rattle.record.specs.Reading.{count, frame, content, fault, read_refusal, read_as, read_answer, read_buffer};
ghost use Rattle.record.specs.Writing.{write_refusal, write_answer, write_buffer};

use refusal::Refusal;

// What is found by reading: the id, the count, and how many words the record has.
#[derive(Clone, Copy)]
pub struct Found {
    pub id: u32,
    pub count: u32,
    pub used: u32,
}

// The answer of an exported call that reads: a refusal's number and zeros, or 0 and what was read.
#[repr(C)]
#[derive(Clone, Copy)]
pub struct ReadAnswer {
    pub refusal: u32,
    pub id: u32,
    pub count: u32,
    pub used: u32,
}

impl From<Result<Found, Refusal>> for ReadAnswer {
    ghost from_gives = { λ outcome answer. answer ≡ read_as outcome };

    fn from(outcome: Result<Found, Refusal>) -> ReadAnswer {
        match outcome {
            Ok(found) => ReadAnswer {
                refusal: 0,
                id: found.id,
                count: found.count,
                used: found.used,
            },
            Err(refusal) => ReadAnswer {
                refusal: u32::from(refusal),
                id: 0,
                count: 0,
                used: 0,
            },
        }
    }
}

// The header of an id and a count.
#[tactic(auto, unfolding(crate::specs::Format::header))]
fn header_of(id: u16, count: usize) -> u32
    requires { count ≤ 2048 }
    ensures { result ≡ header id count }
{
    (id as u32) * 16384 + (count as u32)
}

// The id that a header gives.
#[tactic(auto, unfolding(crate::specs::Format::id_of, symbol::specs::Word::low))]
pub fn id_of(h: u32) -> u32
    ensures { result ≡ id_of h }
{
    h % 0x4000_0000 / 16384
}

// The count that a header gives.
#[tactic(auto, unfolding(crate::specs::Format::count_of))]
pub fn count_of(h: u32) -> usize
    ensures { (result ≡ count_of h) × (result < 2 ^ 14) }
{
    (h % 16384) as usize
}

// The trailer of a header and a sequence. The sum wraps at 2^32, of which 2^30 is a divisor.
fn trailer_of(h: u32, s: &[u32]) -> u32
    ensures { result ≡ trailer (h ∷ s.now) }
{
    let sum = s.iter().fold(h, |sum, w| sum.wrapping_add(*w));
    0xC000_0000 + sum % 0x4000_0000
}

// Refuses a src that does not start with a header and as many words as it gives.
#[tactic(auto, unfolding(symbol::specs::Word::kind))]
fn check_frame(src: &[u32]) -> Result<(), Refusal>
    ensures { numbered result ≡ frame src.now 0 }
{
    if src.is_empty() {
        return Err(Refusal::CutOff);
    }
    let h = src[0];
    if h / 0x4000_0000 != 0 {
        return Err(Refusal::Header);
    }
    let count = count_of(h);
    if 2048 < count {
        return Err(Refusal::Header);
    }
    if src.len() < count + 2 {
        return Err(Refusal::CutOff);
    }
    Ok(())
}

// Refuses a header's sequence and trailer that cannot be taken. A word is the trailer just when it has kind 3 and the right sum.
#[tactic(auto, using(crate::proofs::Reading::close_passed, crate::proofs::Reading::close_refused))]
fn check_content(src: &[u32]) -> Result<(), Refusal>
    requires { count src.now + 2 ≤ length src.now }
    ensures { numbered result ≡ content src.now 0 }
{
    let h = src[0];
    let count = count_of(h);
    let s = &src[1..count + 1];
    if !symbol::all_sound(s) {
        return Err(Refusal::Unsound);
    }
    if src[count + 1] != trailer_of(h, s) {
        return Err(Refusal::Trailer);
    }
    Ok(())
}

// Refuses a src that does not start with a record: CutOff, Header, CutOff, Unsound or Trailer. Words after the trailer are not
// looked at.
pub fn check(src: &[u32]) -> Result<(), Refusal>
    ensures { numbered result ≡ fault src.now 0 }
{
    check_frame(src)?;
    check_content(src)
}

// Refuses a src that cannot be read into a buffer of room words.
fn check_read(src: &[u32], room: usize) -> Result<(), Refusal>
    ensures { numbered result ≡ read_refusal src.now room }
{
    check(src)?;
    if room < count_of(src[0]) {
        return Err(Refusal::Room);
    }
    Ok(())
}

// Reads the record that src starts with and copies its sequence to the start of buffer. Refused: CutOff where src ends before
// the trailer, Header for a first word that is no header, Unsound for an unsound word, Trailer for a wrong trailer, Room where
// buffer is too short; buffer is then as it was. Words after the trailer are not looked at.
pub fn read(src: &[u32], buffer: &mut [u32]) -> Result<Found, Refusal>
    ensures value { read_as result ≡ read_answer src.now (length buffer.old) }
    ensures buffer_after { buffer.new ≡ read_buffer src.now buffer.old }
{
    check_read(src, buffer.len())?;
    let count = count_of(src[0]);
    buffer::copy(&src[1..count + 1], buffer);
    Ok(Found {
        id: id_of(src[0]),
        count: count as u32,
        used: (count as u32) + 2,
    })
}

// Refuses a sequence that cannot be written to a buffer of room words.
fn check_write(s: &[u32], room: usize) -> Result<(), Refusal>
    ensures { numbered result ≡ write_refusal s.now room }
{
    if 2048 < s.len() {
        return Err(Refusal::TooLong);
    }
    if !symbol::all_sound(s) {
        return Err(Refusal::Unsound);
    }
    if room < s.len() + 2 {
        return Err(Refusal::Room);
    }
    Ok(())
}

// Puts the trailer after a header and n words.
#[tactic(auto, using(crate::proofs::Writing::close_put))]
pub fn close(buffer: &mut [u32], n: usize)
    requires { n + 2 ≤ length buffer.old }
    ensures { buffer.new ≡ set buffer.old (n + 1) (trailer (take (n + 1) buffer.old)) }
{
    let t = trailer_of(buffer[0], &buffer[1..n + 1]);
    buffer[n + 1] = t;
}

// Stores the record of a header and a sequence.
#[tactic(auto, using(crate::proofs::Writing::closed))]
fn store(h: u32, s: &[u32], buffer: &mut [u32])
    requires { length s.now + 2 ≤ length buffer.old }
    ensures { buffer.new ≡ onto (h ∷ s.now ++ (trailer (h ∷ s.now) ∷ [])) buffer.old }
{
    let n = s.len();
    buffer[0] = h;
    buffer::copy(s, &mut buffer[1..n + 1]);
    close(buffer, n);
}

// Writes the record of an id and a sequence to the start of buffer and answers how many words it wrote. Refused: TooLong for
// more than 2,048 words, Unsound for an unsound word, Room where buffer is too short; buffer is then as it was.
#[tactic(auto, using(crate::proofs::Writing::written))]
pub fn write(id: u16, s: &[u32], buffer: &mut [u32]) -> Result<u32, Refusal>
    ensures value { counted_as result ≡ write_answer s.now (length buffer.old) }
    ensures buffer_after { buffer.new ≡ write_buffer id s.now buffer.old }
{
    check_write(s, buffer.len())?;
    store(header_of(id, s.len()), s, buffer);
    Ok((s.len() as u32) + 2)
}
