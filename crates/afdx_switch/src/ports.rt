//! Sets of output ports.

ghost use Rattle.std.specs.Prelude.{◌≡◌, ◌==◌, ◌↔◌, ℕ, ◌≤◌, ◌⊎◌, false, true, IsTrue};
ghost use Rattle.std.specs.Int.{bit_at};
ghost use Rattle.afdx_frame.specs.Ports.{last_port};

use afdx_frame::LAST_PORT;

/// A set of the ports 1 to 24 of a switch.
#[derive(Clone, Copy, Debug, PartialEq, Eq)]
pub struct PortSet {
    /// A bit for each port, at its number; there is no port 0.
    ports: u32,
    ghost in_range: { (p : ℕ) → (bit_at ports p == 1) ≡ true → (1 ≤ p) × (p ≤ last_port) },
}

impl PortSet {
    ghost use Rattle.afdx_switch.specs.Ports.{holds};

    pub(crate) fn new() -> PortSet
        ensures { (p : ℕ) → holds result p ≡ false }
    {
        PortSet { ports: 0 }
    }

    pub(crate) fn add(&mut self, port: u8)
        requires first_port { 1 ≤ port }
        requires last { port ≤ last_port }
        ensures added { holds self.new port ≡ true }
        ensures others { (p : ℕ) → (p ≡ port) ⊎ (holds self.new p ≡ holds self.old p) }
    {
        self.ports |= 1 << port;
    }

    /// Whether the port is one of them. A number that is no port's, 0 or over 24, never is.
    pub fn holds(&self, port: u8) -> bool
        ensures held { result ≡ holds self.now port }
        ensures ports_alone { IsTrue result → (1 ≤ port) × (port ≤ last_port) }
    {
        port <= LAST_PORT && (self.ports >> port) & 1 == 1
    }

    /// Whether no port is.
    pub fn is_empty(&self) -> bool
        ensures none { IsTrue result ↔ ((p : ℕ) → holds self.now p ≡ false) }
        ensures no_port { IsTrue result
            ↔ ((p : ℕ) → 1 ≤ p → p ≤ last_port → holds self.now p ≡ false) }
    {
        self.ports == 0
    }
}
