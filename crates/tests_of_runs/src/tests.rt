//! What no clause says of the top calls.

mod beside_the_listing;
mod commands;
mod faults;
mod kept_labels;
mod meeting;
mod over_memory;
mod stopped_workers;
mod sure_source;
