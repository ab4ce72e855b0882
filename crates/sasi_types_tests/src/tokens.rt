// Tokens and the order of partitions, against values that were worked out by hand.
use sasi_types::{DecoratedKey, Key, Partitioner, compare};
use std::alloc::Global;
use std::cmp::Ordering;
use std::process::Abort;

#[test]
fn token_is_the_first_eight_bytes(rt: HostRuntime) {
    let tokens: [(&[u8], u64); 4] = [
        (b"", 0),
        (b"k1", 0x6b31_0000_0000_0000),
        (b"abcdefgh", 0x6162_6364_6566_6768),
        (b"\xff\0\0\0\0\0\0\x01rest", 0xff00_0000_0000_0001),
    ];
    for (key, token) in tokens {
        assert!(rt; Partitioner::Lead8.token(key) == token);
    }
}

// Prefixes of one list of bytes, with tails of each length. A byte above 127 stands at each of the first eight indices of some tail.
#[test]
fn murmur_tokens_take_tail_bytes_as_signed(rt: HostRuntime) {
    let bytes: [u8; 40] = [
        122, 139, 156, 173, 190, 207, 224, 241, 2, 19, 36, 53, 70, 87, 104, 121, 138, 155, 172,
        189, 206, 223, 240, 1, 18, 35, 52, 69, 86, 103, 120, 137, 154, 171, 188, 205, 222, 239, 0,
        17,
    ];
    let tokens: [u64; 41] = [
        0x8000_0000_0000_0000,
        0x0458_b53b_da22_6293,
        0xa251_3c80_6b3c_08b5,
        0x0e03_66d9_5d2b_27a1,
        0x682e_b008_c91e_0c9f,
        0x2bcb_9da3_ce19_c4a2,
        0x0694_e074_1d29_767a,
        0x1075_b10e_af7a_b3a9,
        0xb7d3_011d_d0f7_7de7,
        0xb63a_f0e7_64e9_7e9b,
        0x5aba_c02d_f6aa_8690,
        0x25b9_1648_b109_2d69,
        0x249e_9873_ff55_6328,
        0xe6a0_a3c5_1f8e_bf11,
        0x04c0_4fe6_3b64_2f95,
        0x800e_cb20_106c_126c,
        0xac9a_f802_bbb7_3a4b,
        0x6cbc_ba8b_af2e_aced,
        0x2d95_ea29_68e1_9390,
        0x55c4_c484_5711_5db7,
        0x0009_01b4_5e64_e1b3,
        0x6d26_49bd_e0c6_8957,
        0x23e8_4489_2079_fc0d,
        0x752c_7763_cf0f_43b6,
        0xad76_4f9e_18a0_664c,
        0x3720_81fd_3f66_1628,
        0x7e35_a3a6_1367_b4a3,
        0x88e1_1c26_3c96_ad9f,
        0xd65e_2e3e_bf93_1bca,
        0x850e_dfe3_d3bb_ac76,
        0x9684_2b9e_930e_7189,
        0x528b_fa76_3e35_2764,
        0xe015_0187_ce40_1209,
        0xfc67_0117_dad0_d1d0,
        0x6da0_0dfc_6676_8228,
        0xed5c_0166_772e_3ef1,
        0x44bc_e09f_8eb4_f52b,
        0x6a20_1cd4_3145_aa65,
        0x1ade_8be4_d9eb_2231,
        0x1899_b4d2_c018_5415,
        0xa9c8_d3b8_0504_2427,
    ];
    for (count, token) in tokens.iter().enumerate() {
        assert!(rt;
            Partitioner::Murmur3.token(&bytes[..count]) == *token,
            "{count} bytes"
        );
    }
}

// The longest tail, with a byte above 127 at each index of its second half.
#[test]
fn murmur_tokens_take_the_end_of_a_tail_as_signed(rt: HostRuntime) {
    let key = b"abcdefgh\x80\x9b\xb6\xc1\xdc\xe7\xff";
    assert!(rt; Partitioner::Murmur3.token(key) == 0x394c_f301_97cb_0672);
}

#[test]
fn murmur_tokens_are_in_the_order_of_signed_hashes(rt: HostRuntime) {
    let tokens: [(&[u8], u64); 3] = [
        (b"hello", 0x4bd8_a7b3_41bd_9b02),
        (
            b"The quick brown fox jumps over the lazy dog.",
            0x4d99_481f_9ee9_02c9,
        ),
        // Its hash is the least signed number.
        (
            b"\x9d\xc7\x7d\x32\x8c\x6c\xdd\x92\x22\x4f\xbc\xb1\x20\xd3\x50\x22",
            u64::MAX,
        ),
    ];
    for (key, token) in tokens {
        assert!(rt; Partitioner::Murmur3.token(key) == token);
    }
}

/// Two partitions are in this order, to `compare` and as decorated keys.
fn check_order(
    rt: &impl Abort,
    alloc: Global,
    first: (u64, &[u8]),
    second: (u64, &[u8]),
    order: Ordering,
) {
    assert!(rt; compare(first.0, first.1, second.0, second.1) == order);
    let first = DecoratedKey {
        token: first.0,
        key: Key::new(alloc, first.1).expect(rt, "a key"),
    };
    let second = DecoratedKey {
        token: second.0,
        key: Key::new(alloc, second.1).expect(rt, "a key"),
    };
    assert!(rt; first.cmp(&second) == order);
}

#[test]
fn partitions_go_by_token_and_then_by_key(rt: HostRuntime) {
    let orders: [(u64, &[u8], u64, &[u8], Ordering); 4] = [
        (1, b"b", 2, b"a", Ordering::Less),
        (2, b"a", 1, b"b", Ordering::Greater),
        (1, b"a", 1, b"a\0", Ordering::Less),
        (1, b"\xff", 1, b"\x7f\xff", Ordering::Greater),
    ];
    for (a, x, b, y, order) in orders {
        check_order(&rt, rt.alloc(), (a, x), (b, y), order);
    }
}
