//! The number formats of log files: fixed width, base 128 (varints), and signed base 128 (zigzag).
#![tactic(auto)]

pub mod codec;
