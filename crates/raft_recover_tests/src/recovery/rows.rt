//! Rows of every kind of item but truncations.

use super::batches::{
    CLEAN, COMPACT_3, COMPACT_18, COMPACT_20, COMPACT_40, DELETE_K, GROUP_BEGIN_1_4, GROUP_END,
    PUT_K, RUN_0_2, RUN_10_20, RUN_10_30, RUN_15_18, RUN_20_25, RUN_35_40, RUN_40_45,
};
use super::histories::Batch;
use super::owed::{APPEND, REWRITE, Row};

const RUN_1_4: &str = "000000000000230000000000000000177878780aea9b1c01010103010102035c434291";

const RUN_4_6: &str = "0000000000002100000000000000001678780f18e1f801010102040102e51e3297";

const PUT_K_OF_2: &str = "0000000000001c00000000000000001001020301016b01762c33a0d9";

/// Two runs of region 1, a compaction in the third file that drops the first entries of the first run, and a key of
/// region 2.
pub(crate) const FIVE: [Batch; 4] = [(1, RUN_1_4), (2, RUN_4_6), (3, COMPACT_3), (4, PUT_K_OF_2)];

/// What recovery has to give for these batches, also with an empty segment among them.
pub(crate) const FIVE_OWED: Row = Row {
    batches: &FIVE,
    lines: Some(
        "\
1 entries 3..6 keys 0 append 1 rewrite -
2 entries - keys 1 append 4 rewrite -
cleaned -
live 4 0
",
    ),
    places: &[
        (1, 3, 1, 16, 7, 2),
        (1, 4, 2, 16, 6, 0),
        (1, 5, 2, 16, 6, 1),
    ],
    pairs: &[(2, b"k", Some(b"v"))],
    ..APPEND
};

/// Returns the rows of batches.
pub(crate) fn rows() -> &'static [Row] {
    &ROWS
}

static ROWS: [Row; 27] = [
    // No file.
    Row {
        batches: &[],
        lines: Some(
            "\
cleaned -
live 0 0
",
        ),
        ..APPEND
    },
    // Two entries of one region.
    Row {
        batches: &[(
            12,
            "00000000000022000000000000000017616263c2412435010701020a0203a7b3df17",
        )],
        lines: Some(
            "\
7 entries 10..12 keys 0 append 12 rewrite -
cleaned -
live 2 0
",
        ),
        ..APPEND
    },
    // A region that had no table is cleaned.
    Row {
        batches: &[(12, CLEAN)],
        lines: Some(
            "\
cleaned 1
live 0 0
",
        ),
        ..APPEND
    },
    // A batch that lacks its last byte.
    Row {
        batches: &[(
            12,
            "00000000000022000000000000000017616263c2412435010701020a0203a7b3df",
        )],
        lines: None,
        ..APPEND
    },
    // A batch whose checksum is another: in version 2 it was signed for file 12.
    Row {
        batches: &[(13, "00000000000018000000000000000010010102015b800bdd")],
        lines: None,
        ..APPEND
    },
    FIVE_OWED,
    // The same with an empty part in the third file.
    Row {
        batches: &[
            (1, RUN_1_4),
            (2, RUN_4_6),
            (3, ""),
            (3, COMPACT_3),
            (4, PUT_K_OF_2),
        ],
        ..FIVE_OWED
    },
    // The same with an empty third file, where the compaction is in the fourth.
    Row {
        batches: &[
            (1, RUN_1_4),
            (2, RUN_4_6),
            (3, ""),
            (4, COMPACT_3),
            (4, PUT_K_OF_2),
        ],
        ..FIVE_OWED
    },
    // A compaction past the end of a newer run drops what stood after it.
    Row {
        batches: &[(1, RUN_10_20), (2, RUN_15_18), (2, COMPACT_18)],
        lines: Some(
            "\
1 entries - keys 0 append - rewrite -
cleaned -
live 0 0
",
        ),
        ..APPEND
    },
    // A run after entries that were all dropped.
    Row {
        batches: &[(1, RUN_10_20), (2, COMPACT_20), (2, RUN_40_45)],
        lines: Some(
            "\
1 entries 40..45 keys 0 append 2 rewrite -
cleaned -
live 5 0
",
        ),
        ..APPEND
    },
    // A hole, dropped afterwards.
    Row {
        batches: &[(1, RUN_10_20), (2, RUN_40_45), (2, COMPACT_40)],
        lines: None,
        ..APPEND
    },
    // A hole, cleaned afterwards.
    Row {
        batches: &[(1, RUN_10_20), (2, RUN_40_45), (2, CLEAN)],
        lines: None,
        ..APPEND
    },
    // Rewritten entries: a gap drops what is older, and a lower start what is newer.
    Row {
        batches: &[(1, RUN_10_30), (2, RUN_35_40), (2, RUN_20_25)],
        lines: Some(
            "\
1 entries 20..25 keys 0 append - rewrite 2
cleaned -
live 0 5
",
        ),
        ..REWRITE
    },
    // Rewritten entries: a gap after a run that was accepted.
    Row {
        batches: &[(1, RUN_10_30), (2, RUN_20_25), (2, RUN_40_45)],
        lines: Some(
            "\
1 entries 40..45 keys 0 append - rewrite 2
cleaned -
live 0 5
",
        ),
        ..REWRITE
    },
    // A key that is deleted and put again.
    Row {
        batches: &[(1, PUT_K), (2, DELETE_K), (2, PUT_K)],
        lines: Some(
            "\
1 entries - keys 1 append 2 rewrite -
cleaned -
live 1 0
",
        ),
        ..APPEND
    },
    // A region that is cleaned, and nothing in the file after it.
    Row {
        batches: &[(1, RUN_0_2), (1, CLEAN), (2, "")],
        lines: Some(
            "\
cleaned 1
live 0 0
",
        ),
        ..APPEND
    },
    // A group in three files takes effect whole.
    Row {
        batches: &[
            (1, GROUP_BEGIN_1_4),
            (
                2,
                "0000000000002500000000000000001002090301035f5f010101060301016b0176d1d3cde4",
            ),
            (3, GROUP_END),
        ],
        lines: Some(
            "\
5 entries 1..4 keys 0 append - rewrite 1
6 entries - keys 1 append - rewrite 1
cleaned -
live 0 4
",
        ),
        pairs: &[(6, b"k", Some(b"v"))],
        groups: &[(5, Some((1, 3))), (6, Some((1, 3)))],
        ..REWRITE
    },
    // A group without its end has no effect.
    Row {
        batches: &[
            (1, GROUP_BEGIN_1_4),
            (
                2,
                "0000000000002500000000000000001002090301035f5f010101060301016b0176d1d3cde4",
            ),
        ],
        lines: Some(
            "\
cleaned -
live 0 0
",
        ),
        waiting: 2,
        ..REWRITE
    },
    // Group markers Begin, End, Middle, End: one effect.
    Row {
        batches: &[
            (
                1,
                "0000000000002500000000000000001002090301035f5f01010005030101610176044c1814",
            ),
            (
                2,
                "0000000000002500000000000000001002090301035f5f0101020503010162017620f57b54",
            ),
            (
                3,
                "0000000000002500000000000000001002090301035f5f01010105030101630176f49836db",
            ),
            (
                4,
                "0000000000002500000000000000001002090301035f5f010102050301016401769289f650",
            ),
        ],
        lines: Some(
            "\
5 entries - keys 2 append - rewrite 1
cleaned -
live 0 2
",
        ),
        groups: &[(5, Some((1, 2)))],
        ..REWRITE
    },
    // A newer begin drops the older one.
    Row {
        batches: &[
            (1, GROUP_BEGIN_1_4),
            (
                2,
                "0000000000002a00000000000000001678780f18e1f802090301035f5f010100050102010102dffdfb82",
            ),
            (3, GROUP_END),
        ],
        lines: Some(
            "\
5 entries 1..3 keys 0 append - rewrite 2
cleaned -
live 0 2
",
        ),
        groups: &[(5, Some((2, 3)))],
        ..REWRITE
    },
    // A group beside another region's batch, and a begin that waits.
    Row {
        batches: &[
            (
                1,
                "0000000000002500000000000000001002090301035f5f010100060301016101769956f025",
            ),
            (
                2,
                "0000000000001c0000000000000000100107030101780176a201f895",
            ),
            (
                2,
                "0000000000002500000000000000001002090301035f5f01010206030101620176bdef9365",
            ),
            (
                3,
                "0000000000002500000000000000001002090301035f5f01010006030101630176f7827426",
            ),
        ],
        lines: Some(
            "\
6 entries - keys 2 append - rewrite 1
7 entries - keys 1 append - rewrite 2
cleaned -
live 0 3
",
        ),
        pairs: &[
            (6, b"a", Some(b"v")),
            (6, b"b", Some(b"v")),
            (6, b"c", None),
            (7, b"x", Some(b"v")),
        ],
        groups: &[(6, Some((1, 2))), (7, None)],
        waiting: 1,
        ..REWRITE
    },
    // An end alone.
    Row {
        batches: &[(
            1,
            "0000000000002500000000000000001002090301035f5f01010205030101610176794b3d56",
        )],
        lines: Some(
            "\
cleaned -
live 0 0
",
        ),
        waiting: 1,
        ..REWRITE
    },
    // A group marker with a status over 2.
    Row {
        batches: &[(
            1,
            "0000000000001e00000000000000001001090301035f5f010103c8867aa6",
        )],
        lines: None,
        ..REWRITE
    },
    // A value of two bytes is no group marker.
    Row {
        batches: &[(
            1,
            "0000000000002600000000000000001002090301035f5f01020000050301016b01764390caff",
        )],
        lines: Some(
            "\
5 entries - keys 1 append - rewrite 1
cleaned -
live 0 1
",
        ),
        groups: &[(5, None)],
        ..REWRITE
    },
    // Of two group markers in a batch, a begin of group 9 and an end of group 8, the first counts.
    Row {
        batches: &[
            (
                1,
                "0000000000002e00000000000000001003090301035f5f010100080301035f5f010102050301016b0176131d3ea4",
            ),
            (2, GROUP_END),
        ],
        lines: Some(
            "\
5 entries - keys 1 append - rewrite 1
cleaned -
live 0 1
",
        ),
        groups: &[(5, Some((1, 2)))],
        ..REWRITE
    },
    // The append queue skips group markers.
    Row {
        batches: &[(
            1,
            "0000000000002500000000000000001002090301035f5f010103050301016b017631ce0097",
        )],
        lines: Some(
            "\
5 entries - keys 1 append 1 rewrite -
cleaned -
live 1 0
",
        ),
        ..APPEND
    },
    // Files out of order.
    Row {
        batches: &[(5, PUT_K), (4, PUT_K)],
        lines: None,
        ..APPEND
    },
];
