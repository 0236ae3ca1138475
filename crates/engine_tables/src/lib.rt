// What the engine keeps, by value, and its steps on it (document 02, W11): a row for each transactor, the other numbers, the changes, the refusals; a
// function a kind of step.
#![tactic(auto)]

pub mod effects;
pub mod guards;
pub mod places;
pub mod register;
pub mod table;
pub mod turns;
