//! Sizes as raft-engine 0.4.2 prints and reads them, and a few more.

use raft_base::SizeError;

/// A size in bytes, and the text that it prints as.
pub(super) type PrintedRow = (u64, &'static str);

static PRINTED: [PrintedRow; 17] = [
    (0, "0KiB"),
    (1, "1B"),
    (512, "512B"),
    (1000, "1000B"),
    (1023, "1023B"),
    (1024, "1KiB"),
    (1536, "1536B"),
    (2048, "2KiB"),
    (1_048_576, "1MiB"),
    (1_049_600, "1025KiB"),
    (5_368_709_120, "5GiB"),
    (7_696_581_394_432, "7TiB"),
    (12_384_898_975_268_864, "11PiB"),
    (u64::MAX, "18446744073709551615B"),
    (10, "10B"),
    // Not from there.
    (3 << 20, "3MiB"),
    (1 << 49, "512TiB"),
];

/// A text, and the size in bytes that it stands for.
pub(super) type ReadRow = (&'static str, u64);

static READ: [ReadRow; 58] = [
    ("0", 0),
    ("1", 1),
    ("23", 23),
    ("512", 512),
    ("1024B", 1024),
    ("1536", 1536),
    ("2KiB", 2048),
    (" 0.5 PB", 562_949_953_421_312),
    ("0.5 TB", 549_755_813_888),
    ("0.5GB ", 536_870_912),
    ("0.5MB", 524_288),
    ("0.5KB", 512),
    ("0.5P", 562_949_953_421_312),
    ("0.5T", 549_755_813_888),
    ("0.5G", 536_870_912),
    ("0.5M", 524_288),
    ("0.5K", 512),
    (" 0.5 PiB", 562_949_953_421_312),
    ("1PiB", 1_125_899_906_842_624),
    ("0.5 TiB", 549_755_813_888),
    ("2 TiB", 2_199_023_255_552),
    ("0.5GiB ", 536_870_912),
    ("787GiB ", 845_034_815_488),
    ("0.5MiB", 524_288),
    ("3MiB", 3_145_728),
    ("0.5KiB", 512),
    ("1 KiB", 1024),
    ("0.5e6 B", 500_000),
    ("0.5E6 B", 500_000),
    ("1e6B", 1_000_000),
    ("8E6B", 8_000_000),
    ("8e7", 80_000_000),
    ("1e-1MB", 104_857),
    ("1e+1MB", 10_485_760),
    ("0e+10MB", 0),
    ("0.5B", 0),
    ("-1K", 0),
    ("+5", 5),
    ("5.", 5),
    (".5K", 512),
    ("1e-400", 0),
    ("18446744073709551615", u64::MAX),
    ("99999999999999999999", u64::MAX),
    ("000000000000000000000000000001", 1),
    ("16PiB", 18_014_398_509_481_984),
    ("17000PiB", u64::MAX),
    ("1.1K", 1126),
    ("0.3K", 307),
    ("3.141592653589793238P", 3_537_118_876_014_220),
    // Not from there.
    ("0000000000000000000000000000001", 1),
    ("2.K", 2048),
    ("+.5E1\tK", 5120),
    ("1e9999999999999999999999999999999999999999", u64::MAX),
    ("1e+9999999999999999999999999999999999999999", u64::MAX),
    ("1e-9999999999999999999999999999999999999999", 0),
    // These are rounded there.
    ("9007199254740993", 9_007_199_254_740_993),
    ("18014398509481983", 18_014_398_509_481_983),
    ("0.99999999999999999K", 1023),
];

/// A text that stands for no size, and the error.
pub(super) type RefusedRow = (&'static str, SizeError);

static REFUSED: [RefusedRow; 30] = [
    ("0.5kb", SizeError::Unit),
    ("0.5kB", SizeError::Unit),
    ("0.5Kb", SizeError::Unit),
    ("0.5k", SizeError::Unit),
    ("0.5g", SizeError::Unit),
    ("b", SizeError::Unit),
    ("gb", SizeError::Unit),
    ("1b", SizeError::Unit),
    ("B", SizeError::Number),
    ("1K24B", SizeError::Unit),
    (" 5_KB", SizeError::Unit),
    ("4B7", SizeError::Unit),
    ("5M_", SizeError::Unit),
    ("", SizeError::Empty),
    (" ", SizeError::Empty),
    ("1é", SizeError::NotAscii),
    (".", SizeError::Number),
    ("1e", SizeError::Number),
    ("--1", SizeError::Number),
    ("1.2.3", SizeError::Number),
    ("e5", SizeError::Number),
    ("1e5e5", SizeError::Number),
    ("KB", SizeError::Number),
    ("inf", SizeError::Unit),
    ("nan", SizeError::Unit),
    // Not from there.
    (" \t", SizeError::Empty),
    ("1\u{b5}B", SizeError::NotAscii),
    (".K", SizeError::Number),
    ("1e5-", SizeError::Number),
    ("100000000000000000000", SizeError::Digits),
];

/// Returns the rows of sizes that are printed, of texts that are read, and of texts that are refused.
pub(super) fn rows() -> (
    &'static [PrintedRow],
    &'static [ReadRow],
    &'static [RefusedRow],
) {
    (&PRINTED, &READ, &REFUSED)
}
