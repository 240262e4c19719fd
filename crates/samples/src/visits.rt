// A first visit, of a language system that lists feature 0 many times.
ghost use Rattle.std.specs.Prelude.{◌≡◌, replicate};
ghost use Rattle.numbering.specs.Systems.{no_walk, visit, succeeds};
ghost use Rattle.samples.specs.Alike.{system};

// Whether the visit of 4,999 indices succeeds.
pub fn visit_of_4999() -> bool
    ensures { result ≡ succeeds (visit (system (replicate 4999 0)) no_walk) }
{
    true
}

// Whether the visit of 5,000 indices succeeds.
pub fn visit_of_5000() -> bool
    ensures { result ≡ succeeds (visit (system (replicate 5000 0)) no_walk) }
{
    false
}
