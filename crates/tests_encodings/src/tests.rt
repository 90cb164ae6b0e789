//! The tests, and the maps that they share.

mod again;
mod maps;
mod margins;
mod queries;
