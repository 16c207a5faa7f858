//! Scripts of calls: what a line means, what its command does, and its answer as text.

#![tactic(auto)]

mod answer;
mod command;
mod delivery;
mod desk;
mod direction;
mod hex;
mod misread;
mod numeral;
mod report;
mod script;
mod verb;
mod word;

pub use answer::{Answer, Failure, Unfit};
pub use command::{Command, read};
pub use delivery::Delivery;
pub use desk::Desk;
pub use direction::Direction;
pub use hex::{Hex, byte, bytes, run};
pub use misread::Misread;
pub use numeral::number;
pub use report::{show_delivery, show_pairs};
pub use script::run_script;
pub use verb::{LoneVerb, RunVerb, Verb};
pub use word::first_word;
