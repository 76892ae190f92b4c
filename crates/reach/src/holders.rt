// Which objects name each object.

use model::{Capability, Content, Object};
use std::alloc::{AllocError, Global};

/// For each number, the objects that name it. The lists only choose the order of a search, so no contract says
/// what they hold.
#[derive(Drop)]
pub(crate) struct Holders {
    lists: Vec<Vec<u64>>,
}

impl Holders {
    /// Returns the lists for these objects. Fails only if memory runs out.
    pub(crate) fn of_objects(alloc: Global, objects: &[Object]) -> Result<Holders, AllocError> {
        let mut lists = Vec::new(alloc);
        for _ in 0..objects.len() {
            lists.push(Vec::new(alloc))?;
        }
        let mut holders = Holders { lists };
        for (number, object) in objects.iter().enumerate() {
            holders.add_object(number as u64, object)?;
        }
        Ok(holders)
    }

    /// Returns the objects that name a number.
    pub(crate) fn of_number(&self, number: usize) -> &[u64] {
        match self.lists.get(number) {
            Some(list) => list.as_slice(),
            None => &[],
        }
    }

    // Adds an object as a holder of all that it names: its annex, its address space, and the objects of its
    // capabilities.
    fn add_object(&mut self, holder: u64, object: &Object) -> Result<(), AllocError> {
        match &object.content {
            Content::Free | Content::Page(_) | Content::Bank { .. } => Ok(()),
            Content::Node(slots) => self.add_all(holder, slots.as_slice()),
            Content::Annex(registers) => self.add_all(holder, registers.as_slice()),
            Content::Root(root) => {
                self.add(holder, root.annex)?;
                self.add_all(holder, &[root.space])
            }
        }
    }

    // Adds an object as a holder of the objects that these capabilities name.
    fn add_all(&mut self, holder: u64, capabilities: &[Capability]) -> Result<(), AllocError> {
        for capability in capabilities {
            if let Some(named) = capability.named() {
                self.add(holder, named)?;
            }
        }
        Ok(())
    }

    // Adds a holder of a number.
    fn add(&mut self, holder: u64, named: u64) -> Result<(), AllocError> {
        if let Some(list) = self.lists.get_mut(named as usize) {
            list.push(holder)?;
        }
        Ok(())
    }
}
