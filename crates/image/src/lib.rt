// An image: where everything stands in it, its head, its limits, its messages.
#![tactic(auto)]

pub mod formed;
pub mod head;
pub mod layout;
pub mod limits;
pub mod messages;
