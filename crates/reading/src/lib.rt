// What it means to read a text, and how far the reading looked: definitions and laws, no code.

#![tactic(auto)]
