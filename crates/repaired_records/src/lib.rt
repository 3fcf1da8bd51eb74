// Demand 3 for records that were read into structs and written back: a theorem alone.

#![tactic(auto)]
