//! Numbers and their bytes, as the Rust crate writes them. The tables have the bytes of a fixed
//! count as one number in hexadecimal, the first byte highest.

use std::io::ErrorKind;

/// Makes a row of each line: the numbers before the arrow are written as the bytes after it.
macro_rules! rows {
    ($($($number:expr),+ => $($bytes:literal)+;)+) => {
        [$(($($number),+, $($bytes),+)),+]
    };
}

/// A number, and what `encode_u64`, `encode_u64_desc` and `encode_u64_le` write.
pub(super) type LongRow = (u64, u64, u64, u64);

static U64_ROWS: [LongRow; 26] = rows! {
    0 => 0x00000000_00000000 0xffffffff_ffffffff 0x00000000_00000000;
    1 => 0x00000000_00000001 0xffffffff_fffffffe 0x01000000_00000000;
    2 => 0x00000000_00000002 0xffffffff_fffffffd 0x02000000_00000000;
    10 => 0x00000000_0000000a 0xffffffff_fffffff5 0x0a000000_00000000;
    20 => 0x00000000_00000014 0xffffffff_ffffffeb 0x14000000_00000000;
    63 => 0x00000000_0000003f 0xffffffff_ffffffc0 0x3f000000_00000000;
    64 => 0x00000000_00000040 0xffffffff_ffffffbf 0x40000000_00000000;
    65 => 0x00000000_00000041 0xffffffff_ffffffbe 0x41000000_00000000;
    127 => 0x00000000_0000007f 0xffffffff_ffffff80 0x7f000000_00000000;
    128 => 0x00000000_00000080 0xffffffff_ffffff7f 0x80000000_00000000;
    129 => 0x00000000_00000081 0xffffffff_ffffff7e 0x81000000_00000000;
    255 => 0x00000000_000000ff 0xffffffff_ffffff00 0xff000000_00000000;
    256 => 0x00000000_00000100 0xffffffff_fffffeff 0x00010000_00000000;
    257 => 0x00000000_00000101 0xffffffff_fffffefe 0x01010000_00000000;
    1024 => 0x00000000_00000400 0xffffffff_fffffbff 0x00040000_00000000;
    32_767 => 0x00000000_00007fff 0xffffffff_ffff8000 0xff7f0000_00000000;
    32_768 => 0x00000000_00008000 0xffffffff_ffff7fff 0x00800000_00000000;
    32_769 => 0x00000000_00008001 0xffffffff_ffff7ffe 0x01800000_00000000;
    2_147_483_647 => 0x00000000_7fffffff 0xffffffff_80000000 0xffffff7f_00000000;
    2_147_483_648 => 0x00000000_80000000 0xffffffff_7fffffff 0x00000080_00000000;
    2_147_483_649 => 0x00000000_80000001 0xffffffff_7ffffffe 0x01000080_00000000;
    9_223_372_036_854_775_807 => 0x7fffffff_ffffffff 0x80000000_00000000 0xffffffff_ffffff7f;
    9_223_372_036_854_775_808 => 0x80000000_00000000 0x7fffffff_ffffffff 0x00000000_00000080;
    9_223_372_036_854_775_809 => 0x80000000_00000001 0x7fffffff_fffffffe 0x01000000_00000080;
    u64::MAX - 1 => 0xffffffff_fffffffe 0x00000000_00000001 0xfeffffff_ffffffff;
    u64::MAX => 0xffffffff_ffffffff 0x00000000_00000000 0xffffffff_ffffffff;
};

/// A number, and what `encode_i64`, `encode_i64_desc` and `encode_i64_le` write.
pub(super) type SignedRow = (i64, u64, u64, u64);

static I64_ROWS: [SignedRow; 34] = rows! {
    i64::MIN => 0x00000000_00000000 0xffffffff_ffffffff 0x00000000_00000080;
    i64::MIN + 1 => 0x00000000_00000001 0xffffffff_fffffffe 0x01000000_00000080;
    -2_147_483_649 => 0x7fffffff_7fffffff 0x80000000_80000000 0xffffff7f_ffffffff;
    -2_147_483_648 => 0x7fffffff_80000000 0x80000000_7fffffff 0x00000080_ffffffff;
    -2_147_483_647 => 0x7fffffff_80000001 0x80000000_7ffffffe 0x01000080_ffffffff;
    -32_769 => 0x7fffffff_ffff7fff 0x80000000_00008000 0xff7fffff_ffffffff;
    -32_768 => 0x7fffffff_ffff8000 0x80000000_00007fff 0x0080ffff_ffffffff;
    -32_767 => 0x7fffffff_ffff8001 0x80000000_00007ffe 0x0180ffff_ffffffff;
    -1024 => 0x7fffffff_fffffc00 0x80000000_000003ff 0x00fcffff_ffffffff;
    -1023 => 0x7fffffff_fffffc01 0x80000000_000003fe 0x01fcffff_ffffffff;
    -1 => 0x7fffffff_ffffffff 0x80000000_00000000 0xffffffff_ffffffff;
    0 => 0x80000000_00000000 0x7fffffff_ffffffff 0x00000000_00000000;
    1 => 0x80000000_00000001 0x7fffffff_fffffffe 0x01000000_00000000;
    2 => 0x80000000_00000002 0x7fffffff_fffffffd 0x02000000_00000000;
    10 => 0x80000000_0000000a 0x7fffffff_fffffff5 0x0a000000_00000000;
    20 => 0x80000000_00000014 0x7fffffff_ffffffeb 0x14000000_00000000;
    63 => 0x80000000_0000003f 0x7fffffff_ffffffc0 0x3f000000_00000000;
    64 => 0x80000000_00000040 0x7fffffff_ffffffbf 0x40000000_00000000;
    65 => 0x80000000_00000041 0x7fffffff_ffffffbe 0x41000000_00000000;
    127 => 0x80000000_0000007f 0x7fffffff_ffffff80 0x7f000000_00000000;
    128 => 0x80000000_00000080 0x7fffffff_ffffff7f 0x80000000_00000000;
    129 => 0x80000000_00000081 0x7fffffff_ffffff7e 0x81000000_00000000;
    255 => 0x80000000_000000ff 0x7fffffff_ffffff00 0xff000000_00000000;
    256 => 0x80000000_00000100 0x7fffffff_fffffeff 0x00010000_00000000;
    257 => 0x80000000_00000101 0x7fffffff_fffffefe 0x01010000_00000000;
    1024 => 0x80000000_00000400 0x7fffffff_fffffbff 0x00040000_00000000;
    32_767 => 0x80000000_00007fff 0x7fffffff_ffff8000 0xff7f0000_00000000;
    32_768 => 0x80000000_00008000 0x7fffffff_ffff7fff 0x00800000_00000000;
    32_769 => 0x80000000_00008001 0x7fffffff_ffff7ffe 0x01800000_00000000;
    2_147_483_647 => 0x80000000_7fffffff 0x7fffffff_80000000 0xffffff7f_00000000;
    2_147_483_648 => 0x80000000_80000000 0x7fffffff_7fffffff 0x00000080_00000000;
    2_147_483_649 => 0x80000000_80000001 0x7fffffff_7ffffffe 0x01000080_00000000;
    i64::MAX - 1 => 0xffffffff_fffffffe 0x00000000_00000001 0xfeffffff_ffffff7f;
    i64::MAX => 0xffffffff_ffffffff 0x00000000_00000000 0xffffffff_ffffff7f;
};

/// Two numbers, what `encode_u32` and `encode_u32_le` write of the first, and what `encode_u16`
/// and `encode_u16_le` write of the second.
pub(super) type ShortRow = (u32, u16, u32, u32, u16, u16);

static SHORT_ROWS: [ShortRow; 23] = rows! {
    0, 0 => 0x00000000 0x00000000 0x0000 0x0000;
    1, 1 => 0x00000001 0x01000000 0x0001 0x0100;
    2, 2 => 0x00000002 0x02000000 0x0002 0x0200;
    10, 10 => 0x0000000a 0x0a000000 0x000a 0x0a00;
    20, 20 => 0x00000014 0x14000000 0x0014 0x1400;
    63, 63 => 0x0000003f 0x3f000000 0x003f 0x3f00;
    64, 64 => 0x00000040 0x40000000 0x0040 0x4000;
    65, 65 => 0x00000041 0x41000000 0x0041 0x4100;
    127, 127 => 0x0000007f 0x7f000000 0x007f 0x7f00;
    128, 128 => 0x00000080 0x80000000 0x0080 0x8000;
    129, 129 => 0x00000081 0x81000000 0x0081 0x8100;
    255, 255 => 0x000000ff 0xff000000 0x00ff 0xff00;
    256, 256 => 0x00000100 0x00010000 0x0100 0x0001;
    257, 257 => 0x00000101 0x01010000 0x0101 0x0101;
    1024, 1024 => 0x00000400 0x00040000 0x0400 0x0004;
    32_767, 2047 => 0x00007fff 0xff7f0000 0x07ff 0xff07;
    32_768, 2048 => 0x00008000 0x00800000 0x0800 0x0008;
    32_769, 2049 => 0x00008001 0x01800000 0x0801 0x0108;
    2_147_483_647, 32_767 => 0x7fffffff 0xffffff7f 0x7fff 0xff7f;
    2_147_483_648, 32_768 => 0x80000000 0x00000080 0x8000 0x0080;
    2_147_483_649, 32_769 => 0x80000001 0x01000080 0x8001 0x0180;
    4_294_967_294, 65_534 => 0xfffffffe 0xfeffffff 0xfffe 0xfeff;
    u32::MAX, u16::MAX => 0xffffffff 0xffffffff 0xffff 0xffff;
};

/// A number, and what `encode_i32_le` writes.
static I32_ROWS: [(i32, u32); 28] = rows! {
    i32::MIN => 0x00000080;
    i32::MIN + 1 => 0x01000080;
    -32_769 => 0xff7fffff;
    -32_768 => 0x0080ffff;
    -32_767 => 0x0180ffff;
    -1024 => 0x00fcffff;
    -1023 => 0x01fcffff;
    -1 => 0xffffffff;
    0 => 0x00000000;
    1 => 0x01000000;
    2 => 0x02000000;
    10 => 0x0a000000;
    20 => 0x14000000;
    63 => 0x3f000000;
    64 => 0x40000000;
    65 => 0x41000000;
    127 => 0x7f000000;
    128 => 0x80000000;
    129 => 0x81000000;
    255 => 0xff000000;
    256 => 0x00010000;
    257 => 0x01010000;
    1024 => 0x00040000;
    32_767 => 0xff7f0000;
    32_768 => 0x00800000;
    32_769 => 0x01800000;
    i32::MAX - 1 => 0xfeffff7f;
    i32::MAX => 0xffffff7f;
};

/// Numbers, and what `encode_var_u64` writes for the first and `encode_var_i64` for the second. Where the Rust crate
/// wrote one of the two, the other is calculated: the first is 2n for n, and 2n - 1 for -n.
pub(super) type SpellingRow = (u64, i64, &'static [u8]);

static SPELLINGS: [SpellingRow; 43] = rows! {
    0, 0 => b"\x00";
    1, -1 => b"\x01";
    2, 1 => b"\x02";
    4, 2 => b"\x04";
    10, 5 => b"\x0a";
    20, 10 => b"\x14";
    40, 20 => b"\x28";
    63, -32 => b"\x3f";
    64, 32 => b"\x40";
    65, -33 => b"\x41";
    126, 63 => b"\x7e";
    127, -64 => b"\x7f";
    128, 64 => b"\x80\x01";
    129, -65 => b"\x81\x01";
    130, 65 => b"\x82\x01";
    254, 127 => b"\xfe\x01";
    255, -128 => b"\xff\x01";
    256, 128 => b"\x80\x02";
    257, -129 => b"\x81\x02";
    258, 129 => b"\x82\x02";
    510, 255 => b"\xfe\x03";
    512, 256 => b"\x80\x04";
    514, 257 => b"\x82\x04";
    1024, 512 => b"\x80\x08";
    2045, -1023 => b"\xfd\x0f";
    2047, -1024 => b"\xff\x0f";
    2048, 1024 => b"\x80\x10";
    16_384, 8192 => b"\x80\x80\x01";
    32_767, -16_384 => b"\xff\xff\x01";
    32_768, 16_384 => b"\x80\x80\x02";
    32_769, -16_385 => b"\x81\x80\x02";
    65_535, -32_768 => b"\xff\xff\x03";
    65_536, 32_768 => b"\x80\x80\x04";
    2_147_483_647, -1_073_741_824 => b"\xff\xff\xff\xff\x07";
    2_147_483_648, 1_073_741_824 => b"\x80\x80\x80\x80\x08";
    2_147_483_649, -1_073_741_825 => b"\x81\x80\x80\x80\x08";
    4_294_967_295, -2_147_483_648 => b"\xff\xff\xff\xff\x0f";
    4_294_967_296, 2_147_483_648 => b"\x80\x80\x80\x80\x10";
    9_223_372_036_854_775_807, -4_611_686_018_427_387_904 => b"\xff\xff\xff\xff\xff\xff\xff\xff\x7f";
    9_223_372_036_854_775_808, 4_611_686_018_427_387_904 => b"\x80\x80\x80\x80\x80\x80\x80\x80\x80\x01";
    9_223_372_036_854_775_809, -4_611_686_018_427_387_905 => b"\x81\x80\x80\x80\x80\x80\x80\x80\x80\x01";
    u64::MAX - 1, i64::MAX => b"\xfe\xff\xff\xff\xff\xff\xff\xff\xff\x01";
    u64::MAX, i64::MIN => b"\xff\xff\xff\xff\xff\xff\xff\xff\xff\x01";
};

/// Bytes, what `decode_var_u64` and `decode_var_i64` read at their start, and how many bytes are left then. Some
/// encodings are longer than they need to be.
pub(super) type PrefixRow = (&'static [u8], u64, i64, usize);

static FRONTS: [PrefixRow; 6] = [
    (b"\x80\x80\x80\x00", 0, 0, 0),
    (b"\x80\x00", 0, 0, 0),
    (b"\xff\x00", 127, -64, 0),
    (
        b"\xff\xff\xff\xff\xff\xff\xff\xff\xff\x00",
        9_223_372_036_854_775_807,
        -4_611_686_018_427_387_904,
        0,
    ),
    (b"\x05\x01", 5, -3, 1),
    (b"\x85\x01\x2a", 133, -67, 1),
];

/// Bytes at whose start there is no number, and the kind of the error.
pub(super) type FaultRow = (&'static [u8], ErrorKind);

static FAULTS: [FaultRow; 9] = [
    (b"", ErrorKind::UnexpectedEof),
    (b"\x80", ErrorKind::UnexpectedEof),
    (b"\x80\x80\x80", ErrorKind::UnexpectedEof),
    (
        b"\xff\xff\xff\xff\xff\xff\xff\xff\xff",
        ErrorKind::UnexpectedEof,
    ),
    (
        b"\x80\x80\x80\x80\x80\x80\x80\x80\x80\x80",
        ErrorKind::InvalidData,
    ),
    (
        b"\x80\x80\x80\x80\x80\x80\x80\x80\x80\x02",
        ErrorKind::InvalidData,
    ),
    (
        b"\xff\xff\xff\xff\xff\xff\xff\xff\xff\x02",
        ErrorKind::InvalidData,
    ),
    (
        b"\xff\xff\xff\xff\xff\xff\xff\xff\xff\x7f",
        ErrorKind::InvalidData,
    ),
    (
        b"\x80\x80\x80\x80\x80\x80\x80\x80\x80\x80\x01",
        ErrorKind::InvalidData,
    ),
];

/// Returns the rows of unsigned numbers of eight bytes.
pub(super) fn long_rows() -> &'static [LongRow] {
    &U64_ROWS
}

/// Returns the rows of signed numbers of eight bytes.
pub(super) fn signed_rows() -> &'static [SignedRow] {
    &I64_ROWS
}

/// Returns the rows of unsigned numbers of four and of two bytes.
pub(super) fn short_rows() -> &'static [ShortRow] {
    &SHORT_ROWS
}

/// Returns the rows of signed numbers of four bytes.
pub(super) fn short_signed_rows() -> &'static [(i32, u32)] {
    &I32_ROWS
}

/// Returns the rows of numbers that take as many bytes as they need.
pub(super) fn spelling_rows() -> &'static [SpellingRow] {
    &SPELLINGS
}

/// Returns the rows of bytes that begin with a number of as many bytes as it needs.
pub(super) fn prefix_rows() -> &'static [PrefixRow] {
    &FRONTS
}

/// Returns the rows of bytes that begin with no number.
pub(super) fn fault_rows() -> &'static [FaultRow] {
    &FAULTS
}
