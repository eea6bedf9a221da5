//! Phrases that a text holds as one byte each, so that it takes less memory until it is written.
ghost use Rattle.std.specs.Prelude.{◌≡◌, ◌+◌, ◌<◌, ℕ, List, [], ◌∷◌, ◌++◌, length, take, drop};
ghost use Rattle.std.specs.Prelude.{flat_map, None, IfSome};

/// The bytes of a text that are held for phrases.
pub trait Phrases {
    /// What is written for a byte.
    ghost written: { ℕ → List ℕ };

    /// The place of the first byte that is held for a phrase, with the phrase, if there is one.
    fn first(bytes: &[u8]) -> Option<(usize, &'static str)>
        ensures none { result ≡ None → flat_map written bytes.now ≡ bytes.now }
        ensures some { IfSome result (λ found. (found.0 < length bytes.now) × (flat_map written bytes.now
            ≡ take found.0 bytes.now ++ (found.1.now ++ flat_map written (drop (found.0 + 1) bytes.now)))) };
}

/// No bytes: a text is written as it is held.
pub(crate) struct NoPhrases;

impl Phrases for NoPhrases {
    ghost written = { λ b. b ∷ [] };

    #[inline(always)]
    fn first(_: &[u8]) -> Option<(usize, &'static str)> {
        None
    }
}
