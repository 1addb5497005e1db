// Judges recordings: whether a PL022 master gives one, and with which words. It also finds the difference of two recordings.
// Every public function takes any value of its parameters; contracts cite the definitions of specs/, mostly by the same names.
#![tactic(auto)]

// How many leading cycles two recordings share, and their difference.
pub mod shared;
// Going through a recording, slot by slot.
pub mod place;
// The verdict on a recording.
pub mod judge;
