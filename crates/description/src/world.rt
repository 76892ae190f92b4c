// The frames of all objects, as headers and contents.
ghost use Rattle.std.specs.Prelude.{◌≡◌, ◌<◌, replicate, vec_len, IfOk};
ghost use Rattle.model.specs.Frame.{blank_frame};
ghost use Rattle.description.specs.Described.{first_frame};
ghost use Rattle.description.specs.Laid.{frames_of, HasCount, IsPut};

use model::{Cap, Content, ObjectHeader, Role};
use std::alloc::{AllocError, Global};

/// For each number, the header and the content of its object.
#[derive(Drop)]
pub struct World {
    pub headers: Vec<ObjectHeader>,
    pub contents: Vec<Content<Cap>>,
}

impl World {
    // Returns a world of `count` free numbers. Fails only if memory runs out.
    pub(crate) fn free(alloc: Global, count: usize) -> Result<World, AllocError>
        ensures frames { IfOk result (λ world. frames_of world ≡ replicate count blank_frame) }
        ensures count { IfOk result (HasCount count) }
    {
        let unused = ObjectHeader {
            role: Role::Free,
            allocations: 0,
            calls: 0,
            owner: 0,
        };
        let headers = vec![in alloc; unused; count]?;
        let mut contents = Vec::with_capacity(alloc, count)?;
        for _ in 0..count {
            contents.push(Content::Free)?;
        }
        Ok(World { headers, contents })
    }

    // Puts an object with this owner and content at a number. Its counts are 0.
    #[tactic(auto, using(crate::proofs::Worlds::put_there))]
    pub(crate) fn put(&mut self, number: u64, owner: u64, content: Content<Cap>)
        requires within { number < vec_len self.old.headers }
        requires even { vec_len self.old.contents ≡ vec_len self.old.headers }
        ensures { IsPut number (first_frame owner content) self.old self.new }
    {
        self.headers[number as usize] = ObjectHeader {
            role: content.role(),
            allocations: 0,
            calls: 0,
            owner,
        };
        self.contents[number as usize] = content;
    }
}
