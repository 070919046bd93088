// Two intakes, the engine's and the plain one, opened, fed and removed from the same, and what they leave compared.
#![tactic(auto)]

pub mod both;
pub mod inputs;
pub mod intakes;
