//! Makes lines, as text or as JSON, of what is found in log files, and a picture of the files. Nothing here changes a file.
#![tactic(auto)]

pub mod form;
pub mod json;
pub mod json_dump;
pub mod json_files;
mod json_items;
pub mod json_tables;
pub mod picture;
pub mod print_error;
mod region_order;
pub mod regions;
pub mod uses;

pub use form::Form;
pub use json::{QueueName, reason_as_json, text_as_json};
pub use json_dump::JsonDump;
pub use json_files::{
    append_json_kept, append_json_missing_files, append_json_no_files, append_json_scan,
};
pub use json_tables::{append_json_region, append_json_uses, tables_as_json};
pub use picture::append_picture;
pub use print_error::{PrintError, PrintResult, write_text};
pub use regions::append_keys;
pub use uses::{FileUse, FileUses, append_uses, uses_of};
