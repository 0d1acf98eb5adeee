//! Worked examples of each crate.

mod base;
mod io;
mod printer;
mod reader;
mod set;
mod sim;
mod windows;
