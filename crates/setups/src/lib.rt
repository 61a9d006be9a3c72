// Setups, by which rights come onto the card, kinds 1 and 2: opened, and closed by an installation. Every check precedes every
// change, and the reply is written with the change.
#![tactic(auto)]

pub mod setup; // setup.rt: kind 1, Installation Setup
pub mod install; // install.rt: kind 2, Rights Installation
