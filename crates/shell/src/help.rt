// The help texts of a shell.
ghost use Rattle.std.specs.Prelude.{◌≡◌, ◌≢◌, MatchOption};
ghost use Rattle.std.specs.List.{All, Any};
ghost use Rattle.shell.specs.Served.{WritesHelp};

use script::Output;

/// A topic of the help: a word, and a text about it.
pub struct Topic {
    /// The word after `help`; empty for `help` alone.
    pub word: &'static [u8],
    /// The text: lines for a person.
    pub text: &'static [u8],
}

/// The help of `eros shell`.
pub const TOPICS: &[Topic] = &[
    Topic {
        word: b"",
        text: b"\
call P R W0 W1 W2 W3 C0 C1 C2 C3    process P invokes the capability in register R, and gets the reply
return, send                        the same, without a reply
load P A, store P A V               reads or writes the word at address A of process P
show O, evict O                     prints object O; lets it leave memory
checkpoint, stabilize N, commit     freezes the machine, writes N objects to the log, saves
migrate N, journal O                copies N saved objects home; saves page O alone
restart, cut                        opens the image again; cuts the power first
list                                lists the kind, number and owner of each object
save                                saves all that was done
reach, describe, draw, info         answer as eros does, about what is saved
copy NEW                            writes what is saved to a new image
quit, exit                          ends the shell
help WORD                           explains a command, or the orders of number, page, node, space,
                                    discrim, process or bank
For history, line editing and completion start the shell as: eros-shell IMAGE
",
    },
    Topic {
        word: b"call",
        text: b"\
call P R W0 W1 W2 W3 C0 C1 C2 C3: process P invokes the capability in its register R, and gets the
reply. It sends four words and the capabilities in four registers; register 0 is void. Through a start
or resume capability it waits for the answer. A kernel object carries out order W0 at once. The answer
is done, and a second line has the result code of the order.
",
    },
    Topic {
        word: b"return",
        text: b"return P R W0 W1 W2 W3 C0 C1 C2 C3: as call, but process P becomes available, and gets no reply.\n",
    },
    Topic {
        word: b"send",
        text: b"send P R W0 W1 W2 W3 C0 C1 C2 C3: as call, but process P keeps running, and gets no reply.\n",
    },
    Topic {
        word: b"load",
        text: b"load P A: reads the word at address A of the address space of process P.\n",
    },
    Topic {
        word: b"store",
        text: b"store P A V: writes V to the word at address A of the address space of process P.\n",
    },
    Topic {
        word: b"show",
        text: b"show O: prints object O; the last line is end.\n",
    },
    Topic {
        word: b"evict",
        text: b"evict O: lets object O leave memory; its content stays.\n",
    },
    Topic {
        word: b"checkpoint",
        text: b"\
checkpoint: freezes the machine. Then stabilize and commit save it, and migrate must copy it home
before the next checkpoint.
",
    },
    Topic {
        word: b"stabilize",
        text: b"stabilize N: writes up to N frozen objects to the log; the answer says how many are left.\n",
    },
    Topic {
        word: b"commit",
        text: b"commit: makes the frozen state the saved one. Each frozen object must be in the log.\n",
    },
    Topic {
        word: b"migrate",
        text: b"\
migrate N: copies up to N saved objects from the log to their home places. Commit them first; the next
checkpoint must wait until none is left.
",
    },
    Topic {
        word: b"journal",
        text: b"journal O: saves page O as it is now, without a checkpoint.\n",
    },
    Topic {
        word: b"restart",
        text: b"restart: opens the image again, at the last commit.\n",
    },
    Topic {
        word: b"cut",
        text: b"cut: cuts the power, then opens the image again, at the last commit.\n",
    },
    Topic {
        word: b"list",
        text: b"list: lists the kind, number and owner of each object. show N prints the whole object.\n",
    },
    Topic {
        word: b"save",
        text: b"\
save: saves all that was done. It carries out migrate, checkpoint, stabilize, commit and migrate for
all objects. The answer is saved, or the first refusal.
",
    },
    Topic {
        word: b"reach",
        text: b"\
reach [P ..]: lists what processes P can ever change, or all processes. --reads: what they can read.
--shows O: a shortest chain of capabilities to object O. --to O: which of them can change O, or read it.
--trust S: leaves out what is reached only by starting process S. --json: as JSON. It answers about
what is saved, as eros reach IMAGE P does.
",
    },
    Topic {
        word: b"describe",
        text: b"\
describe: prints the description of what is saved, in TOML. --nodes N, --pages P, --log R: renumbered
for an image of these sizes.
",
    },
    Topic {
        word: b"draw",
        text: b"\
draw: prints what is saved as a graph, in DOT. --from P: only what process P can ever change, with
--reads what it can read. --to O: only object O and what holds a capability to it.
",
    },
    Topic {
        word: b"info",
        text: b"info: prints the sizes of the image, its checkpoint and how many objects it has. --json: as JSON.\n",
    },
    Topic {
        word: b"copy",
        text: b"copy NEW: writes what is saved to a new image in file NEW, as a backup. An old file is replaced.\n",
    },
    Topic {
        word: b"quit",
        text: b"quit: ends the shell. What is not committed is lost. On a terminal the shell asks first.\n",
    },
    Topic {
        word: b"exit",
        text: b"exit: the same as quit.\n",
    },
    Topic {
        word: b"number",
        text: b"Orders of a number: 1 value.\n",
    },
    Topic {
        word: b"page",
        text: b"Orders of a page: 1 read (W1 index), 2 write (W1 index, W2 word), 3 reduce (W1 is 1 or 3).\n",
    },
    Topic {
        word: b"node",
        text: b"\
Orders of a node: 1 fetch (W1 slot), 2 store (W1 slot, C0), 3 reduce (W1 is 1 or 3),
4 space (W1 height), 5 put number (W1 slot, W2 number).
",
    },
    Topic {
        word: b"space",
        text: b"Orders of a space: 3 reduce (W1 is 1 or 3).\n",
    },
    Topic {
        word: b"discrim",
        text: b"Orders of discrim: 1 classify (C0).\n",
    },
    Topic {
        word: b"process",
        text: b"\
Orders of a process: 1 get register (W1), 2 put register (W1, C0), 3 get word (W1),
4 put word (W1, W2), 5 make start (W1 key), 6 get state, 7 set state (W1 is 0 or 1), 8 get space,
9 set space (C0).
",
    },
    Topic {
        word: b"bank",
        text: b"\
Orders of a bank: 1 page, 2 node, 3 process, 4 sub-bank (W1 limit), 5 free (C0), 6 destroy,
7 return to parent, 8 remaining.
",
    },
];

// Returns the text of the topic with this word, or `None`.
fn text_in<'t>(topics: &'t [Topic], word: &[u8]) -> Option<&'t [u8]>
    ensures { MatchOption result (All (λ t. t.word.now ≢ word.now) topics.now)
        (λ text. Any (λ t. (t.word.now ≡ word.now) × (text.now ≡ t.text.now)) topics.now) }
{
    for topic in topics {
        if topic.word == word {
            return Some(topic.text);
        }
    }
    None
}

/// Writes the text of the topic with this word, or that there is none. Ignores failures to write.
pub(crate) fn help_on<V: Output>(topics: &[Topic], word: &[u8], notes: &mut V)
    ensures { WritesHelp topics.now word.now (V.written notes.old) (V.written notes.new) }
{
    let text = match text_in(topics, word) {
        Some(text) => text,
        None => b"There is no help on this. Type help for the commands.\n",
    };
    let _reported = notes.write_fully(text);
}
