//! What no clause says of readers and writers: that calls succeed with ample memory, and what comes through those of std.

mod plans;
mod streams;
mod words;
