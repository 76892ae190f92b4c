// The frames of objects in memory, which can't be changed.
ghost use Rattle.std.specs.Prelude.{◌≡◌, length, IfOk};
ghost use Rattle.model.specs.Sound.{object_count};
ghost use Rattle.capability.specs.Plain.{IsThere, parts_of};

use crate::present::Frames;
use crate::table::ObjectTable;
use device::Failed;
use model::{Cap, Content, ContentRef, Geometry, ObjectHeader};
use std::marker::Model;

/// All objects in memory, by number. They can't be changed.
#[derive(Drop)]
pub struct Plain {
    geometry: Geometry,
    table: ObjectTable,
    contents: Vec<Content<Cap>>,
}

impl Model for Plain {
    ghost use Rattle.std.specs.Prelude.{◌≡◌, length};
    ghost use Rattle.model.specs.Sound.{object_count};
    ghost use Rattle.capability.specs.Plain.{PlainState};

    ghost Value = { PlainState };

    ghost view = { λ p. record {
      geometry = p.geometry;
      headers = p.table;
      contents = p.contents.items;
    } };

    ghost invariant = { λ p. (length p.table ≡ object_count p.geometry)
        × (length p.contents.items ≡ object_count p.geometry) };
}

impl Plain {
    /// The objects with these headers and contents, one of each for every number.
    pub fn new(geometry: Geometry, headers: Vec<ObjectHeader>, contents: Vec<Content<Cap>>) -> Plain
        requires headers { length headers.items ≡ object_count geometry }
        requires contents { length contents.items ≡ object_count geometry }
        ensures { result ≡ record {
          geometry = geometry;
          headers = headers.items;
          contents = contents.items;
        } }
    {
        Plain {
            geometry,
            table: ObjectTable::new(headers),
            contents,
        }
    }

    /// The headers and the contents of all objects, by number.
    pub fn into_parts(self) -> (Vec<ObjectHeader>, Vec<Content<Cap>>)
        ensures headers { result.0.items ≡ self.headers }
        ensures contents { result.1.items ≡ self.contents }
    {
        (self.table.into_headers(), self.contents)
    }
}

impl Frames for Plain {
    ghost parts = { parts_of };

    ghost IsUsable = { λ s. Unit {0} };

    ghost IsFetched = { IsThere };

    ghost ContinuesTo = { λ s t. t ≡ s };

    #[tactic(auto, using(crate::proofs::Untouched::untouched_count))]
    fn geometry(&self) -> Geometry {
        self.geometry
    }

    /// The headers of all objects. There are as many as the geometry has numbers.
    fn table(&self) -> &ObjectTable
        ensures headers { result.now ≡ self.now.headers }
        ensures numbers { length self.now.headers ≡ object_count self.now.geometry }
        ensures contents { length self.now.contents ≡ object_count self.now.geometry }
    {
        &self.table
    }

    fn fetch(&mut self, _numbers: &[u64]) -> Result<(), Failed> {
        // For the proof: using a field brings in the invariant of the struct.
        let _geometry = self.geometry;
        Ok(())
    }

    fn frame(&self, number: u64) -> ContentRef<'_> {
        self.contents[number as usize].as_ref()
    }

    ghost use Rattle.std.proofs.Common.{◌∙◌, refl};

    ghost known_fetched = { λ s n h. h };

    ghost stays_usable = { λ s t went stayed usable. usable };

    ghost continues_same = { λ s. refl };

    ghost continues_twice = { λ s t u h k. k ∙ h };
}
