// Why a device wasn't opened, and the device.
use layout::OpenFault;

/// Why a device wasn't opened, and the device.
#[derive(Drop)]
pub struct OpenRefused<D> {
    pub fault: OpenFault,
    pub device: D,
}
