//! The texts of the library's headers.
#![tactic(auto)]

mod header;
#[cfg(test)]
mod tests;
mod texts;

pub use header::{HEADERS, Header, header_text};
