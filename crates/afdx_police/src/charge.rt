//! What a frame is charged to its link's account.

ghost use Rattle.std.specs.Prelude.{◌≡◌, ℕ, ◌≤◌};
ghost use Rattle.afdx_frame.specs.Lengths.{least_frame};
ghost use Rattle.afdx_frame.specs.Regulation.{wire_of};

/// A kind of charge (ARINC 664 Part 7: byte-based or frame-based policing).
pub trait Charge: Drop {
    /// What a frame of a wire size is charged, where the first number is the greatest wire size of
    /// its link.
    ghost charge_of: { ℕ → ℕ → ℕ };

    /// The bytes that a frame of `wire` bytes on the wire is charged, where `smax` is the greatest
    /// wire size of its link.
    fn charge(smax: u64, wire: u64) -> u64
        ensures { result ≡ charge_of smax wire };

    /// The charge is at least the frame, and at most the link's greatest one.
    ghost bounded: { (smax wire : ℕ) → wire_of least_frame ≤ wire → wire ≤ smax →
        (wire ≤ charge_of smax wire) × (charge_of smax wire ≤ smax) };
}

/// A frame is charged its own wire size.
#[derive(Clone, Copy, Debug)]
pub struct ByteCharge;

impl Charge for ByteCharge {
    ghost use Rattle.std.proofs.Math.Nat.{le_refl};

    ghost charge_of = { λ smax wire. wire };

    ghost bounded = { λ smax wire low high. (le_refl wire, high) };

    fn charge(_smax: u64, wire: u64) -> u64 {
        wire
    }
}

/// A frame is charged the greatest wire size of its link.
#[derive(Clone, Copy, Debug)]
pub struct FrameCharge;

impl Charge for FrameCharge {
    ghost use Rattle.std.proofs.Math.Nat.{le_refl};

    ghost charge_of = { λ smax wire. smax };

    ghost bounded = { λ smax wire low high. (high, le_refl smax) };

    fn charge(smax: u64, _wire: u64) -> u64 {
        smax
    }
}
