//! What the texts of this project have in common. Reading cuts bytes into lines and lines into words, with a blank
//! between two words, and tests what a word is; nothing is copied. Writing adds numbers and frames to the end of
//! a text.
//!
//! ```text
//! 12            a number in decimal, with no zero in front
//! x             a name
//! lib/load.py   a file
//! load.py:9     a frame: a file, a colon and a line
//! ```
#![tactic(auto)]

mod frames;
mod lines;
mod numbers;
mod operands;

pub use frames::push_frame;
pub use lines::{cut, is_sign, next_line};
pub use numbers::{push_number, push_wide};
pub use operands::{is_file, is_name, number};
