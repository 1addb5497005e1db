// Recordings as text: one line per frame, one capital hexadecimal digit per cycle, a line feed at the end of each line.
// Every public function takes any value of its parameters; contracts cite the definitions of specs/, mostly by the same names.
#![tactic(auto)]

// Refusals and their numbers.
pub mod refusals;
// Digits and line feeds.
pub mod characters;
// Lent buffers.
mod put;
// Cycles and places, written as a text.
pub mod write;
// A text, read as cycles and line starts.
pub mod read;
