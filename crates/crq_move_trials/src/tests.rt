//! Moves that several callers help.

mod again;
mod announcing;
mod halting;
mod helping;
mod moved;
mod moving;
mod owing;
mod turns;
