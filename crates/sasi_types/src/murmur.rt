// MurmurHash3 of a key: the form of 128 bits for machines of 64 bits, of which the first half counts.
ghost use Rattle.std.specs.Prelude.{◌≡◌, ◌<◌, ◌≤◌, length};
ghost use Rattle.std.specs.Int.{w64, from_le_bytes};
ghost use Rattle.std.specs.List.{fold};
ghost use Rattle.sasi_types.specs.Murmur.{first_mixed, second_mixed, first_after, second_after, with_block, shifted_byte, signed_half, with_tail, fmix_round, fmix, finalized, hash};

const FIRST_FACTOR: u64 = 0x87c3_7b91_1142_53d5;

const SECOND_FACTOR: u64 = 0x4cf5_ad43_2745_937f;

// The two halves of the hash, as they stand between blocks.
#[derive(Clone, Copy)]
struct HashState {
    first: u64,
    second: u64,
}

/// The hash of the key with these bytes.
#[tactic(auto, unfolding(crate::specs::Murmur::hash))]
pub fn hash(key: &[u8]) -> u64
    ensures { result ≡ hash key.now }
{
    let (blocks, tail) = key.as_chunks::<16>();
    finalized(with_tail(with_blocks(blocks), tail), key.len() as u64)
}

#[tactic(auto, unfolding(crate::specs::Murmur::first_mixed))]
fn first_mixed(half: u64) -> u64
    ensures { result ≡ first_mixed half }
{
    half.wrapping_mul(FIRST_FACTOR)
        .rotate_left(31)
        .wrapping_mul(SECOND_FACTOR)
}

#[tactic(auto, unfolding(crate::specs::Murmur::second_mixed))]
fn second_mixed(half: u64) -> u64
    ensures { result ≡ second_mixed half }
{
    half.wrapping_mul(SECOND_FACTOR)
        .rotate_left(33)
        .wrapping_mul(FIRST_FACTOR)
}

#[tactic(auto, unfolding(crate::specs::Murmur::first_after))]
fn first_after(sums: HashState, half: u64) -> u64
    ensures { result ≡ first_after sums half }
{
    (sums.first ^ first_mixed(half))
        .rotate_left(27)
        .wrapping_add(sums.second)
        .wrapping_mul(5)
        .wrapping_add(0x52dc_e729)
}

#[tactic(auto, unfolding(crate::specs::Murmur::second_after))]
fn second_after(sums: HashState, half: u64, first: u64) -> u64
    ensures { result ≡ second_after sums half first }
{
    (sums.second ^ second_mixed(half))
        .rotate_left(31)
        .wrapping_add(first)
        .wrapping_mul(5)
        .wrapping_add(0x3849_5ab5)
}

// Eight bytes, the lowest first.
fn word(bytes: &[u8]) -> u64
    requires { length bytes.now ≡ 8 }
    ensures { result ≡ from_le_bytes w64 bytes.now }
{
    let mut word = [0; 8];
    word.copy_from_slice(bytes);
    u64::from_le_bytes(word)
}

#[tactic(auto, unfolding(crate::specs::Murmur::with_block))]
fn with_block(sums: HashState, block: &[u8; 16]) -> HashState
    ensures { result ≡ with_block sums block.now }
{
    let (low, high) = block.as_slice().split_at(8);
    let first = first_after(sums, word(low));
    let second = second_after(sums, word(high), first);
    HashState { first, second }
}

fn with_blocks(blocks: &[[u8; 16]]) -> HashState
    ensures { result ≡ fold with_block (record { first = 0; second = 0 }) blocks.now }
{
    let start = HashState {
        first: 0,
        second: 0,
    };
    blocks
        .iter()
        .fold(start, |sums, block| with_block(sums, block))
}

// A byte as a signed number, shifted to its index among eight.
#[tactic(auto, unfolding(crate::specs::Murmur::shifted_byte))]
fn shifted_byte(index: usize, byte: u8) -> u64
    requires { index < 8 }
    ensures { result ≡ shifted_byte index byte }
{
    i64::from(byte.cast_signed()).cast_unsigned() << (8 * index)
}

// At most eight bytes, each as a signed number shifted to its index.
#[tactic(auto, unfolding(crate::specs::Murmur::signed_word))]
fn signed_half(bytes: &[u8]) -> u64
    requires { length bytes.now ≤ 8 }
    ensures { result ≡ signed_half bytes.now }
{
    let mut half = 0;
    for (index, byte) in bytes.iter().enumerate() {
        half ^= shifted_byte(index, *byte);
    }
    half
}

#[tactic(auto, unfolding(crate::specs::Murmur::with_tail))]
fn with_tail(sums: HashState, tail: &[u8]) -> HashState
    requires { length tail.now < 16 }
    ensures { result ≡ with_tail sums tail.now }
{
    let (low, high) = tail.split_at(tail.len().min(8));
    HashState {
        first: sums.first ^ first_mixed(signed_half(low)),
        second: sums.second ^ second_mixed(signed_half(high)),
    }
}

#[tactic(auto, unfolding(crate::specs::Murmur::fmix_round))]
fn fmix_round(factor: u64, sum: u64) -> u64
    ensures { result ≡ fmix_round factor sum }
{
    (sum ^ (sum >> 33)).wrapping_mul(factor)
}

#[tactic(auto, unfolding(crate::specs::Murmur::fmix))]
fn fmix(sum: u64) -> u64
    ensures { result ≡ fmix sum }
{
    let once = fmix_round(0xff51_afd7_ed55_8ccd, sum);
    let twice = fmix_round(0xc4ce_b9fe_1a85_ec53, once);
    twice ^ (twice >> 33)
}

#[tactic(auto, unfolding(crate::specs::Murmur::finalized))]
fn finalized(sums: HashState, count: u64) -> u64
    ensures { result ≡ finalized sums count }
{
    let first = (sums.first ^ count).wrapping_add(sums.second ^ count);
    let second = (sums.second ^ count).wrapping_add(first);
    fmix(first).wrapping_add(fmix(second))
}
