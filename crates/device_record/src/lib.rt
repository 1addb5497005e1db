// A device as a record of 128 bytes: the bytes, runs over line bytes, and the calls on records that C programs use.
// Every public function takes any value of its parameters; contracts cite the definitions of specs/, mostly by the same names.
#![tactic(auto)]

// What a call is refused with.
pub mod refusals;
// A device as 128 bytes.
pub mod record;
// Runs over line bytes.
pub mod run;
// The calls on records.
pub mod calls;
