//! Time zones.

ghost use Rattle.std.specs.Prelude.{◌≡◌, IfOk};

use std::alloc::{AllocError, Global};
use std::marker::Model;

/// The time zone of a timestamp; empty where there is none. Contracts see its bytes.
#[derive(Debug, Drop)]
pub struct Zone(String);

impl Model for Zone {
    ghost use Rattle.std.specs.Prelude.{List, string_bytes, ℕ};

    ghost Value = { List ℕ };

    ghost view = { λ z. string_bytes z.0 };
}

impl Zone {
    /// A copy of a zone's name.
    pub fn new(alloc: Global, name: &str) -> Result<Zone, AllocError>
        ensures { IfOk result (λ zone. zone ≡ name.now) }
    {
        Ok(Zone(String::from_str(alloc, name)?))
    }

    /// The zone's name; empty where there is none.
    pub fn as_str(&self) -> &str
        ensures { result.now ≡ self.now }
    {
        &self.0
    }

    /// An equal zone with memory of its own.
    pub fn copy(&self, alloc: Global) -> Result<Zone, AllocError>
        ensures { IfOk result (λ zone. zone ≡ self.now) }
    {
        Zone::new(alloc, self.as_str())
    }
}

impl PartialEq for Zone {
    ghost use Rattle.std.proofs.Common.{rules};
    ghost use Rattle.std.specs.Cmp.Lexicographic.{pointwise};
    ghost use Rattle.std.specs.Cmp.Rules.{comparing};
    ghost use Rattle.std.specs.Prelude.{nat_eq};

    ghost eq = { pointwise nat_eq };

    ghost laws = { Prim.search (comparing, rules) };

    fn eq(&self, other: &Zone) -> bool {
        self.0 == other.0
    }
}

impl Eq for Zone {
    ghost use Rattle.std.proofs.Common.{rules};
    ghost use Rattle.std.specs.Cmp.Rules.{comparing};

    ghost laws = { Prim.search (comparing, rules) };
}
