// What faults print.
ghost use Rattle.std.specs.Prelude.{Some};
ghost use Rattle.faults.specs.Texts.{layer_text, report_text};

use crate::report::{Layer, Report};
use std::fmt;

impl fmt::Display for Layer {
    ghost output = { λ l. Some (layer_text l) };

    fn fmt<W: fmt::Write>(&self, f: &mut fmt::Formatter<W>) -> fmt::Result {
        f.write_str(match self {
            Layer::Curve => "curve",
            Layer::Hook => "hook",
            Layer::Token => "token",
            Layer::Route => "route",
            Layer::Vault => "vault",
        })
    }
}

// The number, the layer, and the parts of the place that the fault has.
impl fmt::Display for Report {
    ghost output = { λ r. Some (report_text r) };

    fn fmt<W: fmt::Write>(&self, f: &mut fmt::Formatter<W>) -> fmt::Result {
        write!(f, "{}, {}", self.number, self.layer)?;
        if let Some(hop) = self.hop {
            write!(f, ", hop {hop}")?;
        }
        if let Some(pool) = self.pool {
            write!(f, ", pool {pool}")?;
        }
        if let Some(reason) = self.reason {
            write!(f, ", reason {reason}")?;
        }
        Ok(())
    }
}
