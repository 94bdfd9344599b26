// Copying into a lent buffer.
#![tactic(auto)]

ghost use Rattle.std.specs.Prelude.{◌≡◌, ◌≤◌, length};
ghost use Rattle.buffer.specs.Buffer.{onto};

// Copies words to the start of a buffer. By `copy_from_slice` the archive would call `memmove`, and it is to need `memset` alone.
pub fn copy(words: &[u32], buffer: &mut [u32])
    requires { length words.now ≤ length buffer.old }
    ensures { buffer.new ≡ onto words.now buffer.old }
{
    for (i, word) in words.iter().enumerate() {
        buffer[i] = *word;
    }
}
