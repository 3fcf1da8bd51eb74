// Characters and the opening of UTF-8.

#![tactic(auto)]

pub mod chars; // chars.rt: the characters that code asks for by name
pub mod classes; // classes.rt: the character classes of the grammar
pub mod hex; // hex.rt: hexadecimal digits
pub mod output; // output.rt: cells written one behind the other
pub mod refusal; // refusal.rt: why a call refuses
pub mod utf8; // utf8.rt: bytes to characters
