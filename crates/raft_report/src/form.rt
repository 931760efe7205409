//! The forms in which something is printed.

/// The form in which something is printed.
#[derive(Clone, Copy, PartialEq, Eq, Debug)]
pub enum Form {
    /// Lines of text, for people.
    Text,
    /// Lines of JSON, an object each, for programs.
    Json,
}
