ghost use Rattle.std.specs.Prelude.{◌≡◌};
ghost use Rattle.source.specs.Refusals.{number};

// Why a call says no.
#[derive(Clone, Copy, PartialEq, Eq, Debug)]
pub enum Refusal {
    SourceTooLarge = 1,
    BadHeader = 2,
    TooManyPairs = 4,
}

impl Refusal {
    // The number under which the refusal is known.
    pub fn number(self) -> u8
        ensures { result ≡ number self }
    {
        self as u8
    }
}
