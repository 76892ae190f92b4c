// A `Box<Session>` in a form that a C program can hold.
ghost use Rattle.std.specs.Prelude.{◌≡◌, Option, Some, None, IsSome};
ghost use Rattle.vezhnake.specs.declared.session.Session.{Session};
ghost use Rattle.vezhnake.specs.Owned.{pointer_owns, session_coded};

mod box_parts;

use crate::session::Session;
use box_parts::BoxParts;
use std::alloc::Global;
use std::marker::Model;

/// A pointer that owns a session, or null.
#[repr(C)]
#[derive(Drop)]
pub struct SessionPointer {
    ptr: *mut u8,
    alloc: Global,
    pub ghost session: { Option Session } by { session_coded },
}

impl Model for SessionPointer {
    ghost also_owns = { λ p. pointer_owns p.alloc p.ptr p.session };
}

impl SessionPointer {
    /// Returns a pointer that owns this session.
    pub fn new(session: Box<Session>) -> SessionPointer
        ensures { result.session ≡ Some session.value }
    {
        SessionPointer::from_parts(BoxParts::of(session))
    }

    /// Returns the null pointer, which owns nothing.
    pub fn null(alloc: Global) -> SessionPointer
        ensures { result.session ≡ None }
    {
        let ptr = std::ptr::null_mut();
        SessionPointer { ptr, alloc }
    }

    /// Returns the session that the pointer owns.
    pub fn into_box(self) -> Box<Session>
        requires { IsSome self.session }
        ensures { self.session ≡ Some result.value }
    {
        self.into_parts().into_box()
    }

    fn from_parts(parts: BoxParts<Session, Global>) -> SessionPointer
        ensures { result.session ≡ Some parts.value }
    {
        let BoxParts { ptr, alloc } = parts;
        let ptr = ptr as *mut u8;
        SessionPointer { ptr, alloc }
    }

    fn into_parts(self) -> BoxParts<Session, Global>
        requires { IsSome self.session }
        ensures { self.session ≡ Some result.value }
    {
        let SessionPointer { ptr, alloc } = self;
        let ptr = ptr as *mut Session;
        BoxParts { ptr, alloc }
    }
}
