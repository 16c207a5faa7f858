//! Examples of what `console` reads and writes, of how values of `routes` and `sessions` are shown, and of a call that is copied, each proved as any
//! function is and then run. `fields`, `routes` and `cipher` have more of their own. These stand here so that no crate is proved twice for them.

#![tactic(auto)]

#[cfg(test)]
mod console_tests;
#[cfg(test)]
mod routes_tests;
#[cfg(test)]
mod sessions_tests;
