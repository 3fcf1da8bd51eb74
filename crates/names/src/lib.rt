// Names: trimming, joining, flattening and the fixed names.

#![tactic(auto)]

pub mod trim; // trim.rt: white space at the ends
pub mod flatten; // flatten.rt: the spelling that is looked up
pub mod name; // name.rt: parts put behind one another
pub mod same; // same.rt: two texts compared
pub mod fixed; // fixed.rt: properties, types and temporal functions
pub mod ink; // ink.rt: what is no white space
