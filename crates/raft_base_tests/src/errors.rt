//! The texts of the errors.

use raft_base::{Error, MessageError, codec};
use std::alloc::Global;
use std::io;
use std::io::ErrorKind;

/// Tests whether an error prints as a text; a text that ends with a colon and a space needs to be only the beginning.
/// It prints once more where it finds no memory, which happens once in a test at most.
fn is_printed_as(alloc: Global, text: &str, error: &Error) -> bool {
    let mut printed = error.to_string(alloc);
    if printed.is_err() {
        printed = error.to_string(alloc);
    }
    matches!(&printed, Ok(printed) if printed.as_str() == text
        || text.ends_with(": ") && printed.starts_with(text))
}

/// Returns an error by its number, below eleven, and the text that it has to print as.
fn error_with_text(number: usize) -> (Error, &'static str) {
    match number {
        0 => (Error::EntryCompacted, "Entry Compacted"),
        1 => (Error::EntryNotFound, "Entry Not Found"),
        2 => (Error::Full, "Full"),
        3 => (Error::Memory, "Memory"),
        4 => (Error::Failed, "Failed"),
        5 => (
            Error::Message(MessageError::Refused(7)),
            "Message Error: refused with code 7",
        ),
        6 => (
            Error::Codec(codec::Error::KeyLength),
            "Codec Error: bad format key(length)",
        ),
        7 => (
            Error::Codec(codec::Error::KeyPadding),
            "Codec Error: bad format key(padding)",
        ),
        8 => (
            Error::Codec(codec::Error::KeyNotFound),
            "Codec Error: key not found",
        ),
        9 => (
            Error::Codec(codec::Error::unexpected_eof()),
            "Codec Error: eof",
        ),
        _ => (
            Error::Io(io::Error::new(ErrorKind::UnexpectedEof, "eof")),
            "IO Error: ",
        ),
    }
}

/// Tests that each of eleven errors prints the text that it has to print.
#[test]
fn errors_print_their_texts(rt: HostRuntime) {
    for number in 0..11 {
        let (error, text) = error_with_text(number);
        assert!(rt; is_printed_as(rt.alloc(), text, &error));
    }
}

/// Returns an error by its number, below four, with a text.
fn error_with_reason(number: usize, text: String) -> Error {
    match number {
        0 => Error::InvalidArgument(text),
        1 => Error::Corruption(text),
        2 => Error::TryAgain(text),
        _ => Error::Other(text),
    }
}

/// Tests that errors with a reason print it after their own text.
#[test]
fn errors_print_their_reasons(rt: HostRuntime) {
    for &(number, text) in &[
        (0, "Invalid Argument: why"),
        (1, "Corruption: why"),
        (2, "TryAgain Error: why"),
        (3, "Other Error: why"),
    ] {
        let mut why = String::from_str(rt.alloc(), "why");
        if why.is_err() {
            why = String::from_str(rt.alloc(), "why");
        }
        match why {
            Ok(why) => assert!(rt;
                is_printed_as(rt.alloc(), text, &error_with_reason(number, why))
            ),
            Err(_) => assert!(rt; false),
        }
    }
}
