// Why a call of the sink is refused, with the number under which the fault is known.
ghost use Rattle.std.specs.Prelude.{◌≡◌};
ghost use Rattle.serialize.specs.Faults.{code};

#[derive(Clone, Copy, PartialEq, Eq, Debug)]
pub enum Fault {
    Work = 7,
    Limit = 8,
    Offset = 9,
    Out = 10,
}

impl Fault {
    // The number of the fault.
    pub fn number(self) -> u8
        ensures { result ≡ code self }
    {
        self as u8
    }
}
