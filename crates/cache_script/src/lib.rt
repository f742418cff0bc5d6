//! The texts of a run: a script's lines and their commands, the lines that are said, and the names of files.
#![tactic(auto)]

mod faults;
mod file_names;
mod laws;
mod line;
mod line_reader;
mod numbers;
mod pushing;
mod replies;
mod rows;
mod tokens;
mod words;

pub use faults::LineFault;
pub use file_names::{file_name_of, file_name_text};
pub use laws::tokens_are_read_as_said;
pub use line::read_line;
pub use line_reader::{LineReader, ReadFault, Taken};
pub use replies::{damaged_line, opened_line, write_fault, write_reply};

#[cfg(test)]
mod tests;
