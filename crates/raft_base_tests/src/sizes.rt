//! Sizes as texts, values and settings.

ghost use Rattle.std.specs.Prelude.{◌≡◌};

mod rows;

use raft_base::{Factory, ReadableSize, SizeError, Version, size_from_value};
use serde::{Deserialize, Serialize};
use std::alloc::Global;
use std::fmt::InlineText;
use std::str::{FromStr, from_utf8};
use toml::Value;

/// Tests that sizes print as the texts of the rows and are read from them, and that other texts are refused.
#[test]
fn sizes_are_printed_and_read(rt: HostRuntime) {
    let (printed_rows, read_rows, refused_rows) = rows::rows();
    for &(size, text) in printed_rows {
        let printed = InlineText::<32>::of(ReadableSize(size));
        assert_eq!(rt; printed.as_str(), text);
        assert_eq!(rt; ReadableSize::from_str(text), Ok(ReadableSize(size)));
    }
    for &(text, size) in read_rows {
        assert_eq!(rt;
            ReadableSize::from_str(text),
            Ok(ReadableSize(size)),
            "{text}"
        );
    }
    for &(text, fault) in refused_rows {
        assert_eq!(rt; ReadableSize::from_str(text), Err(fault), "{text}");
    }
}

// Tests exponents of a thousand nines: without a sign, and with each.
/// Tests that a text with an exponent of a thousand digits is read as the greatest size, or as 0 with a minus sign.
#[test]
fn long_exponents_are_read(rt: HostRuntime) {
    let mut bytes = [b'9'; 1003];
    bytes[0] = b'1';
    bytes[1] = b'e';
    let unsigned = from_utf8(&bytes[..1002]).ok();
    assert_eq!(rt;
        unsigned.map(ReadableSize::from_str),
        Some(Ok(ReadableSize(u64::MAX)))
    );
    for &(sign, size) in &[(b'+', u64::MAX), (b'-', 0)] {
        bytes[2] = sign;
        let text = from_utf8(&bytes).ok();
        assert_eq!(rt;
            text.map(ReadableSize::from_str),
            Some(Ok(ReadableSize(size)))
        );
    }
}

/// Tests the sizes in kilobytes, megabytes and gigabytes, and their divisions.
#[test]
fn sizes_are_calculated(rt: HostRuntime) {
    for &(size, number, megabytes) in &[
        (ReadableSize::kb(2), 2048, 0),
        (ReadableSize::mb(2), 2_097_152, 2),
        (ReadableSize::gb(2), 2_147_483_648, 2048),
        (ReadableSize(0), 0, 0),
        (ReadableSize::mb(2) / 2, 1_048_576, 1),
        (ReadableSize::mb(1) / 2, 524_288, 0),
    ] {
        assert_eq!(rt; size, ReadableSize(number));
        assert_eq!(rt; size.as_mb(), megabytes, "{number}");
    }
    assert_eq!(rt; ReadableSize::mb(2) / ReadableSize::kb(1), 2048);
    assert_eq!(rt; ReadableSize::gb(2).as_mb(), 2048);
    assert_eq!(rt; ReadableSize::kb(3) * 2 / 4, ReadableSize(1536));
}

/// Returns the size that a text stands for as a TOML value.
///
/// # Errors
///
/// Those of [`size_from_value`]; `Empty` if there is no memory for the value.
fn read_size_value(alloc: Global, text: &str) -> Result<ReadableSize, SizeError> {
    match Value::string(alloc, text) {
        Ok(value) => size_from_value(&value),
        Err(_) => Err(SizeError::Empty),
    }
}

/// Tests that sizes are read from numbers and texts of TOML, and from no other value.
#[test]
fn sizes_are_read_from_toml_values(rt: HostRuntime) {
    assert_eq!(rt;
        size_from_value(&Value::Integer(4096)),
        Ok(ReadableSize(4096))
    );
    assert_eq!(rt; size_from_value(&Value::Integer(-1)), Err(SizeError::Kind));
    assert_eq!(rt;
        size_from_value(&Value::Boolean(true)),
        Err(SizeError::Kind)
    );
    // Memory is refused once in a test at most.
    let size = match read_size_value(rt.alloc(), "4KiB") {
        Err(SizeError::Empty) => read_size_value(rt.alloc(), "4KiB"),
        size => size,
    };
    assert_eq!(rt; size, Ok(ReadableSize(4096)));
}

// Gives the same size each time.
struct Sizes(u64);

impl Factory<ReadableSize> for Sizes {
    ghost gives = { λ sizes size. size.0 ≡ sizes.0 };

    ghost may_refuse = { λ _ _. ⊥ };

    /// Returns a copy of the size of this factory. Never fails.
    fn new_target(&self, _alloc: Global) -> raft_base::Result<ReadableSize> {
        Ok(ReadableSize(self.0))
    }
}

/// Returns two values that a factory makes.
///
/// # Errors
///
/// Those of [`Factory::new_target`].
fn make_two<T: Drop, F: Factory<T>>(alloc: Global, factory: &F) -> raft_base::Result<(T, T)> {
    Ok((factory.new_target(alloc)?, factory.new_target(alloc)?))
}

/// Tests that a factory makes a value at each call.
#[test]
fn a_factory_makes_a_value_at_each_call(rt: HostRuntime) {
    let both = make_two(rt.alloc(), &Sizes(512)).ok();
    assert_eq!(rt; both, Some((ReadableSize(512), ReadableSize(512))));
}

#[derive(Drop, Serialize, Deserialize)]
struct Settings {
    limit: ReadableSize,
    format: Version,
}

/// Reads settings from a text, and returns the text that they are written as; `None` where one of both fails.
fn read_and_write_settings(alloc: Global, text: &str) -> Option<String> {
    let settings = toml::from_str::<Settings>(alloc, text).ok()?;
    toml::to_string(alloc, &settings).ok()
}

// Tests that settings go both ways, and faults in them are refused.
/// Tests that settings with a size and a version are written as the text that they were read from, and faulty ones
/// refused.
#[test]
fn settings_are_read_and_written(rt: HostRuntime) {
    let text = "limit = \"1536B\"\nformat = 2\n";
    // Memory is refused once in a test at most.
    let mut answer = read_and_write_settings(rt.alloc(), text);
    if answer.is_none() {
        answer = read_and_write_settings(rt.alloc(), text);
    }
    assert!(rt; matches!(&answer, Some(written) if written.as_str() == text));
    for &fault in &[
        "limit = \"1k\"\nformat = 2\n",
        "limit = \"1K\"\nformat = 3\n",
        "limit = \"1K\"\nformat = 0\n",
    ] {
        assert!(rt; toml::from_str::<Settings>(rt.alloc(), fault).is_err());
    }
}
