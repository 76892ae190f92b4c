// The handle of a session, which a C program holds.
ghost use Rattle.std.specs.Prelude.{◌≡◌, ◌↔◌, true, Some, None, IsSome, option_map};
ghost use Rattle.vezhnake.specs.TypedCalls.{SavesSession, ServesBatch, ServesOne, ShowsObject, ShowsPage};
ghost use Rattle.vezhnake.specs.Sessions.{ClosesHandle, CopiesAnswer, OnSession, OpensHandle, StepsSession, TakesCalls};

use crate::pointer::SessionPointer;
use crate::raw_command::RawCommand;
use crate::raw_object::{RawObject, RawPage};
use crate::raw_reply::RawReply;
use crate::session::Session;
use crate::status::Status;
use std::alloc::Global;
use std::mem;

/// A handle that a C program holds. It has a session if it is open. Before it is first opened all its bytes
/// are 0.
#[repr(C)]
pub struct Handle {
    pointer: SessionPointer,
    alloc: Global,
    is_open: bool,
    ghost flagged: { (is_open ≡ true) ↔ IsSome pointer.session },
}

impl Drop for Handle {
    fn drop(self) {
        drop(self.into_session());
    }
}

impl Handle {
    // Puts a session into a handle that has none.
    #[inline(always)]
    fn put(&mut self, session: Box<Session>)
        requires { self.old.pointer.session ≡ None }
        ensures { self.new.pointer.session ≡ Some session.value }
    {
        self.pointer = SessionPointer::new(session);
        self.is_open = true;
    }

    // Returns the session of the handle, if there is one.
    fn into_session(self) -> Option<Box<Session>>
        ensures { self.pointer.session ≡ option_map (λ session. session.value) result }
    {
        let Handle {
            pointer,
            alloc: _alloc,
            is_open,
        } = self;
        if is_open {
            Some(pointer.into_box())
        } else {
            None
        }
    }

    // Returns the session of the handle, if there is one, and closes the handle.
    #[inline(always)]
    fn take(&mut self) -> Option<Box<Session>>
        ensures taken { self.old.pointer.session ≡ option_map (λ session. session.value) result }
        ensures left { self.new.pointer.session ≡ None }
    {
        let alloc = self.alloc;
        let closed = Handle {
            pointer: SessionPointer::null(alloc),
            alloc,
            is_open: false,
        };
        mem::replace(self, closed).into_session()
    }

    // Opens a session in a handle that has none. An error changes nothing.
    #[tactic(auto, using(crate::proofs::Handles::opens_new, crate::proofs::Handles::opens_none))]
    fn open_closed(&mut self, image: &[u8], cache: u64) -> Status
        requires { self.old.pointer.session ≡ None }
        ensures { OpensHandle self.old.pointer.session self.new.pointer.session image.now cache result }
    {
        let session = match Session::open(self.alloc, image, cache) {
            Ok(session) => session,
            Err(status) => return status,
        };
        match session.boxed() {
            Some(session) => {
                self.put(session);
                Status::Done
            }
            None => Status::NoMemory,
        }
    }

    /// Opens a session over storage that holds these bytes, as `HostKernel::open` does. Returns `AlreadyOpen` if
    /// the handle is open. An error changes nothing.
    #[tactic(auto, using(crate::proofs::Handles::without, crate::proofs::Handles::opens_again))]
    pub fn open(&mut self, image: &[u8], cache: u64) -> Status
        ensures { OpensHandle self.old.pointer.session self.new.pointer.session image.now cache result }
    {
        if self.is_open {
            return Status::AlreadyOpen;
        }
        self.open_closed(image, cache)
    }

    /// Runs a text as a script, as `Session::step` does. Returns `NotOpen` if the handle isn't open.
    #[tactic(auto, using(crate::proofs::Handles::on_none, crate::proofs::Handles::on_some))]
    pub fn step(&mut self, text: &[u8], buffer: &mut [u8], size: &mut usize) -> Status
        ensures { OnSession self.old.pointer.session self.new.pointer.session result
            ((buffer.new ≡ buffer.old) × (size.new ≡ size.old))
            (λ old new. StepsSession old new text.now buffer.old buffer.new size.new result) }
    {
        let Some(mut session) = self.take() else {
            return Status::NotOpen;
        };
        let status = session.step(text, buffer, size);
        self.put(session);
        status
    }

    /// Copies the last answers, as `Session::copy_answer` does. Returns `NotOpen` if the handle isn't open.
    #[tactic(auto, using(crate::proofs::Handles::on_none, crate::proofs::Handles::on_some))]
    pub fn copy_answer(&mut self, buffer: &mut [u8], size: &mut usize) -> Status
        ensures { OnSession self.old.pointer.session self.new.pointer.session result
            ((buffer.new ≡ buffer.old) × (size.new ≡ size.old))
            (λ old new. CopiesAnswer old new buffer.old buffer.new size.new result) }
    {
        let Some(session) = self.take() else {
            return Status::NotOpen;
        };
        let status = session.copy_answer(buffer, size);
        self.put(session);
        status
    }

    /// Copies the waiting device calls, as `Session::take_calls` does. Returns `NotOpen` if the handle
    /// isn't open.
    #[tactic(auto, using(crate::proofs::Handles::on_none, crate::proofs::Handles::on_some))]
    pub fn take_calls(&mut self, buffer: &mut [u8], size: &mut usize) -> Status
        ensures { OnSession self.old.pointer.session self.new.pointer.session result
            ((buffer.new ≡ buffer.old) × (size.new ≡ size.old))
            (λ old new. TakesCalls old new buffer.old buffer.new size.new result) }
    {
        let Some(mut session) = self.take() else {
            return Status::NotOpen;
        };
        let status = session.take_calls(buffer, size);
        self.put(session);
        status
    }

    /// Carries out commands, as `Session::serve` does. Returns `NotOpen` if the handle isn't open.
    #[tactic(auto, using(crate::proofs::Handles::on_none, crate::proofs::Handles::on_some))]
    pub fn serve(
        &mut self,
        commands: &[RawCommand],
        replies: &mut [RawReply],
        served: &mut usize,
    ) -> Status
        ensures { OnSession self.old.pointer.session self.new.pointer.session result
            ((replies.new ≡ replies.old) × (served.new ≡ served.old))
            (λ old new. ServesBatch old new commands.now replies.old replies.new served.new result) }
    {
        let Some(mut session) = self.take() else {
            return Status::NotOpen;
        };
        let status = session.serve(commands, replies, served);
        self.put(session);
        status
    }

    /// Carries out a command, as `Session::serve_one` does. Returns `NotOpen` if the handle is not open.
    #[inline(always)]
    #[tactic(auto, using(crate::proofs::Handles::on_none, crate::proofs::Handles::on_some))]
    pub fn serve_one(&mut self, command: &RawCommand, reply: &mut RawReply) -> Status
        ensures { OnSession self.old.pointer.session self.new.pointer.session result (reply.new ≡ reply.old)
            (λ old new. ServesOne old new command.now reply.old reply.new result) }
    {
        let Some(mut session) = self.take() else {
            return Status::NotOpen;
        };
        let status = session.serve_one(command, reply);
        self.put(session);
        status
    }

    /// Saves the present state, as `Session::save` does. Returns `NotOpen` if the handle is not open.
    #[tactic(auto, using(crate::proofs::Handles::on_none, crate::proofs::Handles::on_some))]
    pub fn save(&mut self, replies: &mut [RawReply], served: &mut usize) -> Status
        ensures { OnSession self.old.pointer.session self.new.pointer.session result
            ((replies.new ≡ replies.old) × (served.new ≡ served.old))
            (λ old new. SavesSession old new replies.old replies.new served.new result) }
    {
        let Some(mut session) = self.take() else {
            return Status::NotOpen;
        };
        let status = session.save(replies, served);
        self.put(session);
        status
    }

    /// Shows a page, as `Session::page` does. Returns `NotOpen` if the handle isn't open.
    #[tactic(auto, using(crate::proofs::Handles::on_none, crate::proofs::Handles::on_some))]
    pub fn page(&mut self, number: u64, page: &mut RawPage, reply: &mut RawReply) -> Status
        ensures { OnSession self.old.pointer.session self.new.pointer.session result
            ((page.new ≡ page.old) × (reply.new ≡ reply.old))
            (λ old new. ShowsPage old new number page.old.words page.new.words reply.new result) }
    {
        let Some(mut session) = self.take() else {
            return Status::NotOpen;
        };
        let status = session.page(number, page, reply);
        self.put(session);
        status
    }

    /// Shows an object, as `Session::show` does. Returns `NotOpen` if the handle isn't open.
    #[tactic(auto, using(crate::proofs::Handles::on_none, crate::proofs::Handles::on_some))]
    pub fn show(&mut self, number: u64, object: &mut RawObject, reply: &mut RawReply) -> Status
        ensures { OnSession self.old.pointer.session self.new.pointer.session result
            ((object.new ≡ object.old) × (reply.new ≡ reply.old))
            (λ old new. ShowsObject old new number object.old object.new reply.new result) }
    {
        let Some(mut session) = self.take() else {
            return Status::NotOpen;
        };
        let status = session.show(number, object, reply);
        self.put(session);
        status
    }

    /// Drops the session. Returns `NotOpen` if the handle isn't open.
    #[tactic(auto, using(crate::proofs::Handles::closes_none, crate::proofs::Handles::closes_some))]
    pub fn close(&mut self) -> Status
        ensures { ClosesHandle self.old.pointer.session self.new.pointer.session result }
    {
        match self.take() {
            Some(session) => {
                drop(session);
                Status::Done
            }
            None => Status::NotOpen,
        }
    }
}
