// Lines of text. Each function writes into a lent buffer of bytes from a position on and answers the position after what it
// wrote. (`write!` of the library promises its bytes only where it succeeds, and not that it does, and a struct of buffer and position
// would have to say in each contract that it still holds the same `&mut`. A text is bytes: as a `&str` it would ask more of a caller.)
#![tactic(auto)]

ghost use Rattle.std.specs.Prelude.{◌≡◌, [], ◌∷◌, ◌+◌, ◌*◌, ◌≤◌, length};
ghost use Rattle.lines.specs.Text.{decimal, signed, spaced, phrase, line};
ghost use Rattle.lines.specs.Appended.{Appended};

// Writes a text as it is.
pub fn append(out: &mut [u8], at: usize, text: &[u8]) -> usize
    requires { at + length text.now ≤ length out.old }
    ensures { Appended (length text.now) text.now at out.old result out.new }
{
    let end = at + text.len();
    out[at..end].copy_from_slice(text);
    end
}

// Writes a number. 32 bits have at most ten digits.
pub fn number(out: &mut [u8], at: usize, n: u32) -> usize
    requires { at + 10 ≤ length out.old }
    ensures { Appended 10 (decimal n) at out.old result out.new }
{
    let mut digits = [0u8; 20];
    let count = io::decimal(n as u64, &mut digits);
    append(out, at, &digits[..count])
}

// Writes a number with its sign where it is below zero.
pub fn signed_number(out: &mut [u8], at: usize, z: i32) -> usize
    requires { at + 11 ≤ length out.old }
    ensures { Appended 11 (signed z) at out.old result out.new }
{
    let size = z.unsigned_abs();
    if z < 0 {
        let after = append(out, at, b"-");
        return number(out, after, size);
    }
    number(out, at, size)
}

// Writes a number after a space.
fn spaced_number(out: &mut [u8], at: usize, n: u32) -> usize
    requires { at + 11 ≤ length out.old }
    ensures { Appended 11 (spaced (n ∷ [])) at out.old result out.new }
{
    let after = append(out, at, b" ");
    number(out, after, n)
}

// Writes numbers, each after a space.
pub fn spaced_numbers(out: &mut [u8], at: usize, numbers: &[u32]) -> usize
    requires { at + 11 * length numbers.now ≤ length out.old }
    ensures { Appended (11 * length numbers.now) (spaced numbers.now) at out.old result out.new }
{
    let mut end = at;
    for n in numbers {
        end = spaced_number(out, end, *n);
    }
    end
}

// Writes a word and numbers.
pub fn phrase(out: &mut [u8], at: usize, word: &[u8], numbers: &[u32]) -> usize
    requires { at + length word.now + 11 * length numbers.now ≤ length out.old }
    ensures { Appended (length word.now + 11 * length numbers.now) (phrase word.now numbers.now) at out.old result out.new }
{
    let after = append(out, at, word);
    spaced_numbers(out, after, numbers)
}

// Writes a line of a word and numbers.
pub fn line(out: &mut [u8], at: usize, word: &[u8], numbers: &[u32]) -> usize
    requires { at + length word.now + 11 * length numbers.now + 1 ≤ length out.old }
    ensures { Appended (length word.now + 11 * length numbers.now + 1) (line word.now numbers.now) at out.old result out.new }
{
    let after = phrase(out, at, word, numbers);
    append(out, after, b"\n")
}
