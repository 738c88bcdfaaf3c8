//! The lines of text that show FUSE requests, bad requests and replies, for people and for tests.
//!
//! A line is its first words and then fields, each ` name=value`: numbers in decimal, names and data
//! in hexadecimal. It has no line end. The calls named `put_` append to a buffer that the caller
//! uses again; the calls named `line_of` make a new one.
//!
//! What each line is stands in `specs/`: `FieldText` (one field, and the fields of a layout),
//! `RecordText` (the names of each record's fields), `Lines` (the three kinds of lines). What is left of
//! a buffer where an allocation was refused says `Fronts` of `plain_text`, whose calls write the words,
//! numbers and digits.
#![tactic(auto)]

mod bad_requests;
mod fields;
mod records;
mod replies;
mod requests;
#[cfg(test)]
mod tests;

pub use bad_requests::{line_of_bad, put_bad_line};
pub use fields::{put_field, put_hex_field};
pub use replies::{line_of_reply, put_reply_line};
pub use requests::{line_of, put_line};
