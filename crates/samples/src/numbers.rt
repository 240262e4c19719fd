// What becomes of the features of the built-in font, with lookups 0 and 1, all features and the script `latn` kept.
ghost use Rattle.std.specs.Prelude.{◌≡◌, [], ◌∷◌};
ghost use Rattle.rows.specs.Builtin.{builtin_reading};
ghost use Rattle.samples.specs.Kept.{latn_retained, latn_numbers, latn_own, latn_pairs};

use keys::Pair;

// The features that are retained: all that survive.
pub fn first_font_retained() -> [u16; 4]
    ensures { result ≡ latn_retained builtin_reading (0 ∷ 1 ∷ []) (0 ∷ 1 ∷ 2 ∷ 3 ∷ 4 ∷ []) }
{
    [0, 1, 2, 4]
}

// The number of each of them: features 1 and 2 share one.
pub fn first_font_numbers() -> [u16; 4]
    ensures { result ≡ latn_numbers builtin_reading (0 ∷ 1 ∷ []) (0 ∷ 1 ∷ 2 ∷ 3 ∷ 4 ∷ []) }
{
    [0, 1, 1, 2]
}

// How many numbers there are.
pub fn first_font_own() -> usize
    ensures { result ≡ latn_own builtin_reading (0 ∷ 1 ∷ []) (0 ∷ 1 ∷ 2 ∷ 3 ∷ 4 ∷ []) }
{
    3
}

// The language systems that are kept: the first record equals the default, so the second alone.
pub fn first_font_pairs() -> [Pair; 1]
    ensures { result ≡ latn_pairs builtin_reading (0 ∷ 1 ∷ []) (0 ∷ 1 ∷ 2 ∷ 3 ∷ 4 ∷ []) }
{
    [Pair {
        script: 0,
        lang_sys: 1,
    }]
}
