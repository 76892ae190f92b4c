// Devices that are closed after their use.
use device::Device;

/// A device that its last user closes. Any `Device` is one.
///
/// Only `close` makes `was_closed` true of a state. So a contract with `was_closed` says in which state the device
/// was dropped, though it isn't returned.
pub trait ClosableDevice: Device {
    /// The device was closed in this state.
    ghost was_closed: { Self → Type 0 };

    /// Drops the device. Makes no device call.
    fn close(self)
        ensures { was_closed self };
}

impl<D: Device> ClosableDevice for D {
    ghost was_closed = { λ state. Unit {0} };

    fn close(self) {}
}
