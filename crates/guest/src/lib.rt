// What a guest call reads and writes of what is lent besides the block.
#![tactic(auto)]

pub mod bank;
pub mod registers;
pub mod window;
