// Words and symbols, told by the window.

#![tactic(auto)]

pub mod keywords; // keywords.rt: words as rows, symbols by a match
