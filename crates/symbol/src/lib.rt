// Words of 32 bits: which may stand in a sequence, which are retired, and which two match.
#![tactic(auto)]

ghost use Rattle.std.specs.Prelude.{◌≡◌};
ghost use Rattle.symbol.specs.Word.{is_call, is_no_call, is_sound, is_retired, replaced, equal_calls, matches};
ghost use Rattle.symbol.specs.Sequence.{all_sound, none_retired};

// The codes that stand for the retired codes 65,000 to 65,015, in that order.
const REPLACEMENTS: [u32; 16] = [
    11, 14, 14, 27, 30, 52, 52, 52, 101, 118, 240, 241, 300, 512, 777, 1024,
];

// Whether a word is a call.
pub fn is_call(w: u32) -> bool
    ensures { result ≡ is_call w }
{
    w / 0x1_0000 == 0x4000
}

// Whether a word is the no-call.
pub fn is_no_call(w: u32) -> bool
    ensures { result ≡ is_no_call w }
{
    w == 0x8000_0000
}

// Whether a word may stand in a sequence: a call or the no-call.
fn is_sound(w: u32) -> bool
    ensures { result ≡ is_sound w }
{
    is_call(w) | is_no_call(w)
}

// Whether a word is a call of a retired code.
fn is_retired(w: u32) -> bool
    ensures { result ≡ is_retired w }
{
    (0x4000_fde8 <= w) & (w <= 0x4000_fdf7)
}

// The word as it is compared and hashed: a call of a retired code becomes a call of the code that this stands for, and any other
// word is itself. An entry of the table is read for every word, and counts where the word is retired, so that nothing branches.
// The first retired code is 8 above a multiple of 16, so the entry of a retired code is told by its lower four bits and 8.
pub fn replaced(w: u32) -> u32
    ensures { result ≡ replaced w }
{
    let retired = is_retired(w) as u32;
    let entry = REPLACEMENTS[((w % 16 + 8) % 16) as usize];
    retired * (0x4000_0000 + entry) + (1 - retired) * w
}

// Whether two words, as they stand, are calls with equal codes. No bit differs between the two, and the upper half of the first is
// a call's: one number, which is 0 just then, so that nothing branches. Of replaced words it says whether they match.
pub fn equal_calls(a: u32, b: u32) -> bool
    ensures { result ≡ equal_calls a b }
{
    ((a ^ b) | (a / 0x1_0000 ^ 0x4000)) == 0
}

// Whether two words match, for any two words: both are calls with equal codes once they are replaced.
pub fn words_match(a: u32, b: u32) -> bool
    ensures { result ≡ matches a b }
{
    equal_calls(replaced(a), replaced(b))
}

// Whether each word may stand in a sequence. Every word is looked at, so that the compiler can take several at once.
pub fn all_sound(s: &[u32]) -> bool
    ensures { result ≡ all_sound s.now }
{
    s.iter().fold(true, |all, w| all & is_sound(*w))
}

// Whether no word is a call of a retired code.
pub fn none_retired(s: &[u32]) -> bool
    ensures { result ≡ none_retired s.now }
{
    s.iter().fold(true, |all, w| all & !is_retired(*w))
}
