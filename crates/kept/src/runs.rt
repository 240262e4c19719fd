ghost use Rattle.std.specs.Prelude.{◌≤◌};

// The indices from a first to a last one.
#[derive(Clone, Copy, PartialEq, Eq, Debug)]
pub struct Run {
    pub(crate) first: u16,
    pub(crate) last: u16,
    ghost forward: { first ≤ last },
}
