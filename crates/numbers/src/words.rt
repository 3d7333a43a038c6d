// Words of 4 bytes, lowest byte first.
ghost use Rattle.std.specs.Prelude.{◌≡◌, ◌/◌, ◌<◌, length, get_or};
ghost use Rattle.numbers.specs.Words.{words_of};

// The word at entry n.
pub fn word_at(bytes: &[u8], n: usize) -> u32
    requires { n < length bytes.now / 4 }
    ensures { result ≡ get_or (words_of 4 bytes.now) n 0 }
{
    let at = 4 * n;
    u32::from_le_bytes([bytes[at], bytes[at + 1], bytes[at + 2], bytes[at + 3]])
}
