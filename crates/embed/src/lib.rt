//! What a C program calls: covering a run and inverting sixteen bytes, on a route that is named by its number. No call keeps anything: what a
//! session needs is passed, and what is to be kept is left in a reply.

#![tactic(auto)]

mod cover;
mod cover_call;
mod invert;
mod invert_call;
mod on_route;
mod reply;

pub use cover_call::janvlozer_cover;
pub use invert_call::janvlozer_invert;
pub use reply::Reply;
