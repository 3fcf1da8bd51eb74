// The record as text, a line for each item.

#![tactic(auto)]

mod output; // output.rt: the characters printed so far
mod number; // number.rt: the digits of a number
mod value; // value.rt: the value field of an item
mod line; // line.rt: the lines of a record
mod printed; // printed.rt: from bytes to the characters that are printed
pub mod print; // print.rt: from bytes to bytes
