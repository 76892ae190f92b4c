// The theorems on sound worlds.
ghost use Rattle.model_laws.specs.Laws.{InvocationKeepsSound, JournalKeepsSound};

/// An invocation by a running process keeps a sound world sound.
pub fn invocation_keeps_sound()
    ensures { InvocationKeepsSound }
{}

/// If a page of a sound saved world is journaled, the world stays sound.
pub fn journal_keeps_sound()
    ensures { JournalKeepsSound }
{}
