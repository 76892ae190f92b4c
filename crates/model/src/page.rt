// The 512 words of a page, stored inline.
ghost use Rattle.std.specs.Prelude.{◌≡◌, ◌<◌, length, replicate, slice_set};
ghost use Rattle.model.specs.Words.{IsZeroFrom};
ghost use Rattle.std.specs.Borrow.{Lends, sem, Array, u64 as word};

use std::marker::Model;

/// How many words of 64 bits a page has.
pub const WORDS: usize = 512;

/// The 512 words of a page, stored inline. `Words` holds a `Page` in a box.
#[derive(Drop)]
pub struct Page {
    words: [u64; 512],
    /// All words from this index on are 0, so `clear` writes only those before it.
    end: usize,
}

impl Model for Page {
    ghost use Rattle.std.specs.Prelude.{List, ℕ};
    ghost use Rattle.model.specs.Words.{IsZeroFrom};

    ghost Value = { List ℕ };

    ghost view = { λ p. p.words };

    ghost invariant = { λ p. IsZeroFrom p.end p.words };
}

// Sets the words before `end` to 0. Those from `end` on are 0 already.
fn clear_before(words: &mut [u64], end: usize)
    requires count { length words.old ≡ 512 }
    requires zero { IsZeroFrom end words.old }
    ensures { words.new ≡ replicate 512 0 }
{
    for index in 0..end {
        words[index] = 0;
    }
}

impl Page {
    ghost use Rattle.model.specs.contracts.page.Page.{the_row};

    /// A page of zeros.
    pub fn blank() -> Page
        ensures { result ≡ replicate 512 0 }
    {
        Page {
            words: [0; 512],
            end: 0,
        }
    }

    /// A page with these words.
    pub fn of(words: &[u64; 512]) -> Page
        ensures { result ≡ words.now }
    {
        Page {
            words: *words,
            end: WORDS,
        }
    }

    /// The words in order.
    pub fn as_array(&self) -> &[u64; 512]
        ensures { result.now ≡ self.now }
    {
        &self.words
    }

    /// Borrows all words, to change them.
    pub fn as_mut_slice(&mut self) -> &mut [u64]
        ensures* writes_back { sem 𝓛 (Lends the_row (Array word 0) self.entry result (λ words. words)) }
        ensures value { result.now ≡ self.old }
        ensures length { length self.old ≡ 512 }
    {
        self.end = WORDS;
        let words = &mut self.words;
        words.as_mut_slice()
    }

    /// Sets the word at an index.
    pub fn set(&mut self, index: usize, word: u64)
        requires { index < 512 }
        ensures { self.new ≡ slice_set self.old index word }
    {
        self.words[index] = word;
        if self.end <= index {
            self.end = index + 1;
        }
    }

    /// Sets all words.
    pub fn put(&mut self, words: &[u64; 512])
        ensures { self.new ≡ words.now }
    {
        self.words = *words;
        self.end = WORDS;
    }

    /// Sets all words to 0.
    pub fn clear(&mut self)
        ensures { self.new ≡ replicate 512 0 }
    {
        clear_before(&mut self.words[..], self.end);
        self.end = 0;
    }
}
