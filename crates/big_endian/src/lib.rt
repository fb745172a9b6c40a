// Numbers in bytes, the highest byte first (document 01, "All numbers in it are big-endian"): read and put.
// Kept: a place beside the bytes, since the numbers of a file, of an input and of a profile's part stand at places counted from its start;
// a function for each size, since `from_be_bytes` is each type's own.
#![tactic(auto)]

ghost use Rattle.std.specs.Prelude.{◌≡◌, [], ◌∷◌, ◌+◌, ◌≤◌, ◌<◌, length};
ghost use Rattle.std.proofs.lemmas.List.Edits.{sets};
ghost use Rattle.big_endian.specs.BigEndian.{word_at, long_at, bytes_of};

// The 16-bit number that begins at `at`.
pub fn word_at(file: &[u8], at: usize) -> u16
    requires { at + 2 ≤ length file.now }
    ensures { result ≡ word_at file.now at }
{
    u16::from_be_bytes([file[at], file[at + 1]])
}

// The 32-bit number that begins at `at`.
pub fn long_at(input: &[u8], at: usize) -> u32
    requires { at + 4 ≤ length input.now }
    ensures { result ≡ long_at input.now at }
{
    u32::from_be_bytes([input[at], input[at + 1], input[at + 2], input[at + 3]])
}

// A 16-bit number, big-endian.
pub fn put_word(value: u16, buffer: &mut [u8], at: usize)
    requires { at + 2 ≤ length buffer.old }
    ensures { buffer.new ≡ sets buffer.old at (bytes_of (value ∷ [])) }
{
    buffer[at..at + 2].copy_from_slice(&value.to_be_bytes());
}
