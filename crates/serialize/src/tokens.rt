// The word for an open object. It cannot be let go: packing or discarding takes it.
ghost use Rattle.std.specs.Prelude.{◌<◌, ◌≤◌};

pub struct Token {
    pub(crate) level: u16,
    ghost ok: { (0 < level) × (level ≤ 8) },
}
