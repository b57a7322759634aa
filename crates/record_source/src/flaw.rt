//! What can be wrong with a record.
ghost use Rattle.std.specs.Prelude.{◌≡◌};
ghost use Rattle.record_source.specs.Reading.{fault_of};

use answers::fault::Fault;

/// Why there is no field or record.
#[derive(Clone, Copy)]
pub(crate) enum Flaw {
    /// The bytes end inside it.
    Cut,
    /// It is misshapen.
    Wrong,
    /// A count is beyond its limit.
    Count,
}

impl From<Flaw> for Fault {
    ghost from_gives = { λ flaw fault. fault ≡ fault_of flaw };

    fn from(flaw: Flaw) -> Fault {
        match flaw {
            Flaw::Cut | Flaw::Wrong => Fault::Record,
            Flaw::Count => Fault::CountLimit,
        }
    }
}
