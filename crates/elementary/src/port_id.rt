//! The name of a port.
ghost use Rattle.std.specs.Prelude.{◌≡◌};
ghost use Rattle.elementary.specs.Ids.{same_port};

/// Two 64-bit numbers, which together are the 128 bits of the original's port id.
#[derive(Clone, Copy, PartialEq, Eq, Debug)]
pub struct PortId {
    pub high: u64,
    pub low: u64,
}

impl PortId {
    /// What `==` answers, in the specification's words.
    pub fn is(self, other: PortId) -> bool
        ensures { result ≡ same_port self other }
    {
        self == other
    }
}
