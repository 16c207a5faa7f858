//! A byte inverted in three fields and by five routes.
use crate::asking::{Asking, HEADING};
use crate::inversion::Inversion;
use routes::RouteName;
use std::fmt;

/// A byte, to be shown as it is inverted: its ways through three fields, and then each route asked once.
#[derive(Clone, Copy)]
pub struct Inverted(pub u8);

impl fmt::Display for Inverted {
    fn fmt<W: fmt::Write>(&self, f: &mut fmt::Formatter<W>) -> fmt::Result {
        let byte = self.0;
        writeln!(f, "{}", Inversion::new(byte))?;
        writeln!(f)?;
        writeln!(
            f,
            "inverting {byte:02X} by five routes, each asked once on sixteen bytes that begin with {byte:02X}"
        )?;
        writeln!(f)?;
        write!(f, "{HEADING}")?;
        for name in RouteName::ALL {
            write!(f, "\n{}", Asking::new(name, byte))?;
        }
        Ok(())
    }
}
