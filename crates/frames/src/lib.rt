// The frames of the PL022: slot tables, shift registers, lines, and what a master does in each slot. No register file.
// Every function takes any value of its parameters; contracts cite the definitions of specs/, mostly by the same names.
#![tactic(auto)]

// Bits of a word.
pub mod bits;
// The engine's state, and the steps of its shift registers.
pub mod engine;
// Slot tables: events and levels.
pub mod slots;
// The lines, and the bytes of lines and pins.
pub mod lines;
// What a master does in each slot.
pub mod master;
