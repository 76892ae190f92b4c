// The 512 words of a page, in a box.
ghost use Rattle.std.specs.Prelude.{◌≡◌, ◌<◌, length, replicate, IfOk, slice_index, slice_set};
ghost use Rattle.std.specs.Borrow.{Lends, sem, Array, u64 as word};

use crate::page::Page;
use std::alloc::{AllocError, Global};
use std::marker::Model;

/// The 512 words of a page, in a box.
#[derive(Drop)]
pub struct Words {
    page: Box<Page>,
}

impl Model for Words {
    ghost use Rattle.std.specs.Prelude.{List, ℕ};

    ghost Value = { List ℕ };

    ghost view = { λ w. w.page.value };
}

impl Words {
    ghost use Rattle.model.specs.contracts.words.Words.{the_row};

    /// A page of zeros. Fails only if memory runs out.
    pub fn new(alloc: Global) -> Result<Self, AllocError>
        ensures { IfOk result (λ words. words ≡ replicate 512 0) }
    {
        Ok(Words {
            page: Box::new(alloc, Page::blank())?,
        })
    }

    /// A page with these words. Fails only if memory runs out.
    pub fn of(alloc: Global, words: &[u64; 512]) -> Result<Self, AllocError>
        ensures { IfOk result (λ copy. copy ≡ words.now) }
    {
        Ok(Words {
            page: Box::new(alloc, Page::of(words))?,
        })
    }

    /// The word at an index.
    pub fn get(&self, index: usize) -> u64
        requires { index < 512 }
        ensures value { result ≡ slice_index self.now index }
        ensures length { length self.now ≡ 512 }
    {
        self.as_array()[index]
    }

    /// The words in order.
    pub fn as_array(&self) -> &[u64; 512]
        ensures { result.now ≡ self.now }
    {
        self.page.as_array()
    }

    /// The words in order.
    pub fn as_slice(&self) -> &[u64]
        ensures value { result.now ≡ self.now }
        ensures length { length self.now ≡ 512 }
    {
        &self.as_array()[..]
    }

    /// Borrows all words, to change them.
    pub fn as_mut_slice(&mut self) -> &mut [u64]
        ensures* writes_back { sem 𝓛 (Lends the_row (Array word 0) self.entry result (λ words. words)) }
        ensures value { result.now ≡ self.old }
        ensures length { length self.old ≡ 512 }
    {
        let page = &mut self.page;
        let page = &mut **page;
        page.as_mut_slice()
    }

    /// Sets the word at an index.
    pub fn set(&mut self, index: usize, word: u64)
        requires { index < 512 }
        ensures set { self.new ≡ slice_set self.old index word }
    {
        self.page.set(index, word);
    }
}
