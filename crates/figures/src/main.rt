//! Holds worked figures and the published vectors against the library, on all five routes. A line for each: its label, and `same` or `differs`.

#![tactic(auto)]

mod engines;
mod everywhere;
mod exchanges;
mod fips197;
mod sp800_38a;
mod vectors;

use std::io;
use vectors::VECTORS;

/// Prints the verdict of a label.
fn tell(rt: &HostRuntime, label: &str, same: bool) -> io::Result<()> {
    let verdict = if same { "same" } else { "differs" };
    println!(rt; "{label} {verdict}")
}

fn main(rt: HostRuntime) -> io::Result<()> {
    let heap = rt.alloc();
    tell(&rt, "k", exchanges::longest_runs(heap)?)?;
    tell(&rt, "l", engines::short_keys_are_refused())?;
    tell(&rt, "m", exchanges::last_openings(heap)?)?;
    for vector in &VECTORS {
        tell(&rt, vector.label, vector.claim.holds(heap)?)?;
    }
    Ok(())
}
