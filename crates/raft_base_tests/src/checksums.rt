//! Checksums as other programs compute them.

use raft_base::util::crc32;

/// Lengths, each with the checksum of so many bytes: the numbers 0 to 250, again and again.
static CHECKSUMS: [(usize, u32); 23] = [
    (0, 0x00000000),
    (1, 0xd202ef8d),
    (7, 0xad5809f9),
    (8, 0x88aa689f),
    (15, 0xa06c675e),
    (16, 0xcecee288),
    (31, 0x4d786d77),
    (127, 0xdec481aa),
    (128, 0x24650d57),
    (143, 0x5e21612a),
    (144, 0x74e0998b),
    (159, 0x7ad76dab),
    (160, 0xf3cccc55),
    (255, 0x6f7c9956),
    (319, 0xf8fd72cf),
    (639, 0xff805395),
    (640, 0xc6fc3391),
    (1023, 0x5a9e0eff),
    (1024, 0x7be4dfd0),
    (2348, 0xfde1f9ae),
    (2349, 0xf12669cb),
    (2649, 0xcef9a330),
    (5000, 0xc1607408),
];

/// Returns the rows of checksums.
fn checksum_rows() -> &'static [(usize, u32)] {
    &CHECKSUMS
}

/// Returns the checksum of bytes.
fn checksum_of(bytes: &[u8]) -> u32 {
    crc32(bytes)
}

/// Fills bytes with the numbers 0 to 250, again and again.
fn fill_with_count(bytes: &mut [u8]) {
    for (k, byte) in bytes.iter_mut().enumerate() {
        *byte = (k % 251) as u8;
    }
}

/// Tests that checksums are those that other programs compute: of known texts, and of bytes of many lengths.
#[test]
fn checksums_agree_with_other_programs(rt: HostRuntime) {
    assert_eq!(rt; checksum_of(b"123456789"), 0xcbf43926);
    assert_eq!(rt; checksum_of(b"\xff\xff\xff\xff"), 0xffffffff);
    assert_eq!(rt; checksum_of(b"abc"), 0x352441c2);
    let mut bytes = [0u8; 5000];
    fill_with_count(&mut bytes);
    for &(len, checksum) in checksum_rows() {
        assert_eq!(rt;
            checksum_of(&bytes[..len.min(5000)]),
            checksum,
            "{len} bytes"
        );
    }
}
