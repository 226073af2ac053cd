//! A conversation with a post over a reader and a writer: a line is read, the line of its reply is written, and so on.
//!
//! The functions are generic over the reader and the writer, so that what is read and written can be promised: the bytes that a
//! reader has left are its member `remaining`, those that a writer holds its member `contents`. A file and the standard streams
//! have none: nothing is promised at these types, only that the same text runs on them.
//!
//! Two things are tested and not proved: that a reply is flushed before the next line is waited for, and that nothing fails where
//! no read, write or allocation did, since a contract allows each function to give up with an error.
#![tactic(auto)]

mod conversation;
mod files;
mod reading;
mod service;
mod writing;

pub use conversation::converse;
pub use files::serve_file;
pub use service::{serve, text_of};
