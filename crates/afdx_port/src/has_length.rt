//! What a port has to know of a frame.

ghost use Rattle.std.specs.Prelude.{◌≡◌};

/// What a port can send: a frame of 64 to 1518 bytes with its check sequence (IEEE 802.3, 4.4.2).
pub trait HasLength: Drop {
    ghost use Rattle.afdx_port.specs.Facts.{Facts, AreLawful};

    ghost facts: { Self → Facts };

    /// The length of the frame, in bytes: always the same for a value.
    fn length(&self) -> u64
        ensures { result ≡ (facts self.now).bytes };

    /// How long the frame may wait for its turn, in ns: at most 100,000,000, and always the same
    /// for a value. None if it may wait for ever.
    fn longest_wait(&self) -> Option<u64>
        ensures { result ≡ (facts self.now).longest_wait };

    ghost lawful: { (x : Self) → AreLawful (facts x) };
}
