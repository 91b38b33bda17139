//! Bytes in and out, decimal numbers, and lines of tokens.
//!
//! A [`Source`] gives bytes in pieces, a [`Sink`] takes them in pieces, and either may fail at any call. The crate promises
//!
//! - that [`read_whole`] gives all the bytes of a source, or names why not, and that [`write_whole`] has appended all its
//!   bytes, or a prefix of them with a fault;
//! - that a fault is told only where the object that was handed in counted one, and that it counted none where none is told;
//! - that a number has one spelling, which [`parse_number`] reads and [`put_number`] writes;
//! - that [`put_line`] and [`put_number_line`] write lines of tokens, one blank between two and LF at the end, and that a
//!   [`StrictReader`] reads exactly such lines, or tells why the first token that can't stand doesn't.
#![tactic(auto)]

mod count;
mod failed;
mod fault_script;
mod front;
mod laws;
mod line;
mod line_fault;
mod mem_sink;
mod mem_source;
mod number;
mod reading;
mod sink;
mod source;
mod std_sink;
mod std_source;
mod strict;
mod strict_reader;
mod sure_source;
mod token;
mod writing;

pub use count::LAST_COUNT;
pub use failed::Failed;
pub use laws::{line_laws, token_laws};
pub use line::{put_line, put_number_line};
pub use line_fault::LineFault;
pub use mem_sink::MemSink;
pub use mem_source::MemSource;
pub use number::{NumberFault, parse_number, put_number};
pub use reading::{ReadRefusal, read_whole};
pub use sink::Sink;
pub use source::Source;
pub use std_sink::StdSink;
pub use std_source::StdSource;
pub use strict::{read_number, read_word};
pub use strict_reader::StrictReader;
pub use sure_source::SureSource;
pub use token::Token;
pub use writing::{WriteFault, write_whole};
