//! Rows with truncations, each batch in a file of its own.

use super::batches::{
    CLEAN, COMPACT_1, COMPACT_2, COMPACT_3, COMPACT_20, GROUP_BEGIN_1_10, GROUP_BEGIN_TRUNCATE_4,
    GROUP_END, GROUP_END_4_6, GROUP_MIDDLE_TRUNCATE_4, RUN_0_1, RUN_0_2, RUN_1_2, RUN_1_10_OF_5,
    RUN_2_3, RUN_3_4, RUN_10_20, RUN_18_20, RUN_20_30, RUN_25_30, TRUNCATE_0, TRUNCATE_1,
    TRUNCATE_2, TRUNCATE_2_OF_5, TRUNCATE_5, TRUNCATE_15, TRUNCATE_20,
};
use super::owed::{APPEND, REWRITE, Row};

/// Returns the rows of truncations.
pub(crate) fn rows_of_truncations() -> &'static [Row] {
    &ROWS
}

static ROWS: [Row; 23] = [
    Row {
        batches: &[(1, RUN_10_20), (2, TRUNCATE_15), (3, RUN_18_20)],
        lines: None,
        ..APPEND
    },
    Row {
        batches: &[
            (1, RUN_10_20),
            (2, RUN_20_30),
            (3, TRUNCATE_20),
            (4, RUN_25_30),
        ],
        lines: None,
        ..APPEND
    },
    Row {
        batches: &[
            (1, RUN_10_20),
            (2, COMPACT_20),
            (3, RUN_20_30),
            (4, TRUNCATE_20),
            (5, RUN_25_30),
        ],
        lines: Some(
            "\
1 entries 25..30 keys 0 append 5 rewrite -
cleaned -
live 5 0
",
        ),
        ..APPEND
    },
    Row {
        batches: &[
            (1, RUN_10_20),
            (2, RUN_20_30),
            (3, COMPACT_20),
            (4, TRUNCATE_20),
            (5, RUN_25_30),
        ],
        lines: Some(
            "\
1 entries 25..30 keys 0 append 5 rewrite -
cleaned -
live 5 0
",
        ),
        ..APPEND
    },
    Row {
        batches: &[
            (1, RUN_10_20),
            (2, RUN_20_30),
            (3, TRUNCATE_20),
            (4, RUN_25_30),
        ],
        lines: Some(
            "\
1 entries 25..30 keys 0 append - rewrite 4
cleaned -
live 0 5
",
        ),
        ..REWRITE
    },
    Row {
        batches: &[(1, RUN_10_20), (2, TRUNCATE_5)],
        lines: Some(
            "\
1 entries - keys 0 append - rewrite -
cleaned -
live 0 0
",
        ),
        ..APPEND
    },
    Row {
        batches: &[(1, RUN_0_1), (2, TRUNCATE_0), (3, RUN_2_3)],
        lines: Some(
            "\
1 entries 2..3 keys 0 append 3 rewrite -
cleaned -
live 1 0
",
        ),
        ..APPEND
    },
    Row {
        batches: &[(1, RUN_0_2), (2, TRUNCATE_1), (3, RUN_2_3)],
        lines: Some(
            "\
1 entries 2..3 keys 0 append - rewrite 3
cleaned -
live 0 1
",
        ),
        ..REWRITE
    },
    Row {
        batches: &[(1, RUN_1_2), (2, TRUNCATE_1), (3, RUN_2_3)],
        lines: Some(
            "\
1 entries 2..3 keys 0 append 3 rewrite -
cleaned -
live 1 0
",
        ),
        ..APPEND
    },
    Row {
        batches: &[(1, RUN_0_1), (2, RUN_1_2), (3, TRUNCATE_1), (4, RUN_2_3)],
        lines: None,
        ..APPEND
    },
    Row {
        batches: &[(1, RUN_0_1), (2, RUN_1_2), (3, TRUNCATE_1), (4, RUN_2_3)],
        lines: Some(
            "\
1 entries 2..3 keys 0 append - rewrite 4
cleaned -
live 0 1
",
        ),
        ..REWRITE
    },
    Row {
        batches: &[(1, RUN_0_1), (2, RUN_1_2), (3, COMPACT_2), (4, RUN_2_3)],
        lines: Some(
            "\
1 entries 2..3 keys 0 append 4 rewrite -
cleaned -
live 1 0
",
        ),
        ..APPEND
    },
    Row {
        batches: &[(1, RUN_0_1), (2, RUN_1_2), (3, TRUNCATE_0), (4, RUN_1_2)],
        lines: Some(
            "\
1 entries 1..2 keys 0 append 4 rewrite -
cleaned -
live 1 0
",
        ),
        ..APPEND
    },
    Row {
        batches: &[
            (1, RUN_0_1),
            (2, RUN_1_2),
            (3, RUN_1_2),
            (4, TRUNCATE_1),
            (5, RUN_2_3),
        ],
        lines: None,
        ..APPEND
    },
    Row {
        batches: &[
            (1, RUN_0_1),
            (2, RUN_0_2),
            (3, COMPACT_1),
            (4, RUN_1_2),
            (5, TRUNCATE_1),
            (6, RUN_2_3),
        ],
        lines: Some(
            "\
1 entries 2..3 keys 0 append 6 rewrite -
cleaned -
live 1 0
",
        ),
        ..APPEND
    },
    Row {
        batches: &[
            (1, RUN_0_1),
            (2, COMPACT_1),
            (3, RUN_1_2),
            (4, TRUNCATE_1),
            (5, RUN_2_3),
        ],
        lines: Some(
            "\
1 entries 2..3 keys 0 append 5 rewrite -
cleaned -
live 1 0
",
        ),
        ..APPEND
    },
    Row {
        batches: &[
            (1, RUN_0_1),
            (2, RUN_1_2),
            (3, TRUNCATE_1),
            (4, RUN_2_3),
            (5, COMPACT_3),
            (6, RUN_3_4),
        ],
        lines: None,
        ..APPEND
    },
    Row {
        batches: &[
            (1, RUN_0_1),
            (2, RUN_1_2),
            (3, TRUNCATE_1),
            (4, RUN_2_3),
            (5, CLEAN),
        ],
        lines: None,
        ..APPEND
    },
    Row {
        batches: &[
            (1, RUN_0_1),
            (2, RUN_1_2),
            (3, TRUNCATE_1),
            (4, RUN_2_3),
            (5, RUN_0_1),
        ],
        lines: None,
        ..APPEND
    },
    Row {
        batches: &[
            (1, RUN_1_2),
            (2, RUN_2_3),
            (3, TRUNCATE_2),
            (4, RUN_3_4),
            (5, TRUNCATE_1),
            (6, RUN_2_3),
        ],
        lines: None,
        ..APPEND
    },
    Row {
        batches: &[
            (1, RUN_1_10_OF_5),
            (2, GROUP_BEGIN_TRUNCATE_4),
            (3, GROUP_END),
        ],
        lines: Some(
            "\
5 entries 1..4 keys 0 append - rewrite 1
cleaned -
live 0 3
",
        ),
        ..REWRITE
    },
    Row {
        batches: &[(1, RUN_1_10_OF_5), (2, GROUP_BEGIN_TRUNCATE_4)],
        lines: Some(
            "\
5 entries 1..10 keys 0 append - rewrite 1
cleaned -
live 0 9
",
        ),
        waiting: 1,
        ..REWRITE
    },
    Row {
        batches: &[
            (1, GROUP_BEGIN_1_10),
            (2, GROUP_MIDDLE_TRUNCATE_4),
            (3, GROUP_END_4_6),
            (4, TRUNCATE_2_OF_5),
        ],
        lines: Some(
            "\
5 entries 1..2 keys 0 append - rewrite 1
cleaned -
live 0 1
",
        ),
        ..REWRITE
    },
];
