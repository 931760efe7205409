//! Hashes and multiples as raft-engine 0.4.2 computes them.

use raft_base::{hash_u64, round_down, round_up, unhash_u64};

/// A number, what `hash_u64` returns for it, and what `unhash_u64` returns for it.
type HashRow = (u64, u64, u64);

static HASHES: [HashRow; 19] = [
    (0, 0, 0),
    (1, 6_238_072_747_940_578_789, 10_839_530_715_563_148_754),
    (2, 15_839_785_061_582_574_730, 3_232_317_374_596_615_093),
    (10, 530_445_201_382_180_217, 3_854_558_239_378_145_648),
    (20, 1_060_890_402_764_360_434, 7_755_224_743_856_296_452),
    (63, 16_265_493_861_000_839_189, 6_854_760_177_923_690_011),
    (64, 9_990_191_023_282_495_955, 5_751_532_796_507_829_640),
    (65, 7_717_048_380_801_830_571, 234_410_355_299_225_516),
    (127, 11_573_519_679_882_973_477, 14_184_328_034_036_982_750),
    (128, 12_620_869_835_119_970_534, 11_503_065_593_015_659_280),
    (129, 9_899_047_392_060_391_253, 17_811_522_081_171_557_860),
    (255, 3_715_836_577_830_171_958, 1_387_578_021_953_577_775),
    (256, 17_882_227_441_062_385_421, 16_476_353_605_988_575_916),
    (257, 253_978_793_194_525_224, 1_699_026_132_595_194_087),
    (1024, 8_101_005_175_654_470_197, 10_657_398_715_279_768_056),
    (
        u64::MAX,
        13_029_008_266_876_403_067,
        14_959_274_266_131_672_512,
    ),
    (777, 11_824_231_290_756_969_075, 12_518_643_541_646_900_835),
    (
        4_294_967_296,
        15_573_649_723_082_471_743,
        11_589_508_547_809_492_868,
    ),
    (
        9_223_372_036_854_775_808,
        2_720_858_781_877_447_050,
        14_854_397_320_843_743_578,
    ),
];

/// Offsets and alignments, each with the multiple of the alignment at or above the offset, and the one at or below it.
const MULTIPLES: [(usize, usize, usize, usize); 6] = [
    (18, 4, 20, 16),
    (64, 16, 64, 64),
    (79, 4096, 4096, 0),
    (0, 1, 0, 0),
    (1, 4096, 4096, 0),
    (4096, 4096, 4096, 4096),
];

/// Returns the rows of hashes.
fn hash_rows() -> &'static [HashRow] {
    &HASHES
}

/// Returns the multiple of an alignment at or above an offset, and the one at or below it; `None` where one of them
/// doesn't exist or doesn't fit.
fn multiples_around(offset: usize, alignment: usize) -> Option<(usize, usize)> {
    Some((
        multiple_above(offset, alignment)?,
        multiple_below(offset, alignment)?,
    ))
}

/// Returns the multiple of an alignment at or above an offset; `None` for the alignment 0, or close to the highest
/// number.
fn multiple_above(offset: usize, alignment: usize) -> Option<usize> {
    if alignment == 0 || offset > usize::MAX - alignment {
        return None;
    }
    Some(round_up(offset, alignment))
}

/// Returns the multiple of an alignment at or below an offset; `None` for the alignment 0.
fn multiple_below(offset: usize, alignment: usize) -> Option<usize> {
    if alignment == 0 {
        return None;
    }
    Some(round_down(offset, alignment))
}

/// Tests hashes of numbers, the numbers of hashes, and multiples of an alignment round an offset, each against a
/// table.
#[test]
fn hashes_and_multiples_are_as_the_rows_say(rt: HostRuntime) {
    for &(number, hash, unhashed) in hash_rows() {
        assert_eq!(rt; hash_u64(number), hash, "{number}");
        assert_eq!(rt; unhash_u64(number), unhashed, "{number}");
        assert_eq!(rt; unhash_u64(hash_u64(number)), number);
    }
    for &(offset, alignment, above, below) in &MULTIPLES {
        assert_eq!(rt; multiples_around(offset, alignment), Some((above, below)));
    }
}
