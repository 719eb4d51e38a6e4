//! Numbers in bytes, the lowest byte first.
ghost use Rattle.std.specs.Prelude.{◌≡◌, ◌+◌, ◌*◌, ◌≤◌, length};
ghost use Rattle.scene_reader.specs.Fault.{short_at, word_at, signed_at, words_in, row_of};

pub fn short_at(bytes: &[u8], place: usize) -> u16
    requires { place + 2 ≤ length bytes.now }
    ensures { result ≡ short_at place bytes.now }
{
    u16::from_le_bytes([bytes[place], bytes[place + 1]])
}

pub fn word_at(bytes: &[u8], place: usize) -> u32
    requires { place + 4 ≤ length bytes.now }
    ensures { result ≡ word_at place bytes.now }
{
    u32::from_le_bytes([
        bytes[place],
        bytes[place + 1],
        bytes[place + 2],
        bytes[place + 3],
    ])
}

pub fn signed_at(bytes: &[u8], place: usize) -> i32
    requires { place + 4 ≤ length bytes.now }
    ensures { result ≡ signed_at place bytes.now }
{
    word_at(bytes, place).cast_signed()
}

/// The numbers of a triangle.
#[tactic(auto, unfolding(crate::specs::Fault::words_in))]
pub fn words_of(bytes: &[u8]) -> [u32; 3]
    requires { length bytes.now ≡ 12 }
    ensures { result ≡ words_in 3 bytes.now }
{
    [word_at(bytes, 0), word_at(bytes, 4), word_at(bytes, 8)]
}

/// A row of signed numbers.
pub fn row_of<const N: usize>(bytes: &[u8]) -> [i32; N]
    requires { length bytes.now ≡ 4 * N }
    ensures { result ≡ row_of N bytes.now }
{
    let mut row = [0; N];
    for k in 0..N {
        row[k] = signed_at(bytes, 4 * k);
    }
    row
}
