// What the definitions and laws of a chain (document 02, W11) and the code of the walk both speak of.
#![tactic(auto)]

pub mod words;
