// The sizes of an image.
ghost use Rattle.std.specs.Prelude.{◌≡◌, unwrap_or};
ghost use Rattle.description.specs.Sizes.{grown_geometry};

use model::Geometry;

/// The requested sizes of an image. `None` keeps the image's own.
#[derive(Clone, Copy)]
pub struct Sizes {
    /// The number of nodes.
    pub nodes: Option<u64>,
    /// The number of pages.
    pub pages: Option<u64>,
    /// The number of slots in one half of the log.
    pub log: Option<u64>,
}

/// Why a description can't be renumbered for new sizes.
#[derive(Clone, Copy)]
pub enum GrowthFault {
    /// No image may have these sizes.
    Limits,
    /// The number of a bank, a process or a node is beyond the new number of nodes.
    Nodes,
    /// There are fewer pages than the numbers of the objects need.
    Pages,
    /// Memory ran out.
    NoMemory,
}

// Returns the requested size, or the image's own if none is requested.
fn size_or(size: Option<u64>, own: u64) -> u64
    ensures { result ≡ unwrap_or size own }
{
    match size {
        Some(size) => size,
        None => own,
    }
}

impl Sizes {
    /// Returns the sizes of an image after this request.
    pub fn over(self, own: Geometry) -> Geometry
        ensures { result ≡ grown_geometry own self }
    {
        Geometry {
            nodes: size_or(self.nodes, own.nodes),
            pages: size_or(self.pages, own.pages),
            log: size_or(self.log, own.log),
        }
    }
}
