// The gate of a header.
ghost use Rattle.std.specs.Prelude.{◌≡◌, ◌<◌, length};
ghost use Rattle.layout.specs.Gate.{gate_bytes, gate_of};

use crate::bytes::blank;

/// The gate of a header. The header is ignored while its gate is closed.
#[derive(Clone, Copy, PartialEq, Eq)]
pub enum Gate {
    Closed = 0,
    Open = 1,
}

/// Writes the 512 bytes of a gate's sector.
pub fn encode_gate(gate: Gate, into: &mut [u8])
    requires { length into.old ≡ 512 }
    ensures { into.new ≡ gate_bytes gate }
{
    blank(into);
    into[0] = gate as u8;
}

/// Returns the gate, by the first byte alone: after a torn write the others may be anything.
pub fn decode_gate(bytes: &[u8]) -> Gate
    requires { 0 < length bytes.now }
    ensures { result ≡ gate_of bytes.now }
{
    if bytes[0] == 1 {
        Gate::Open
    } else {
        Gate::Closed
    }
}
