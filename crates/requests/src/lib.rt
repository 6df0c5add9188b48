// What is asked of the program: its arguments, what it says of them, the text that it is given, and what it says where the system refuses.
#![tactic(auto)]

pub mod arguments;
pub mod failures;
pub mod help;
pub mod reading;
