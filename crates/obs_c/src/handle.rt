// A box as a pointer that C may hold, or none.
ghost use Rattle.std.specs.Prelude.{◌≡◌, IsSome, None, Option, Some};
ghost use Rattle.obs_c.specs.inner.Kept.{keeps};
ghost use Rattle.obs_edit.specs.Sessions.{Session};

use crate::loose::Loose;
use obs_edit::Session;
use std::alloc::Global;
use std::marker::Model;
use std::ptr;

/// The pointer to a session, or none. The type behind it is hidden from C.
#[repr(C)]
pub struct Handle {
    at: *mut u8,
    alloc: Global,
    pub ghost value: { Option Session },
}

impl Model for Handle {
    ghost also_owns = { λ h. keeps h.alloc h.at h.value };
}

impl Handle {
    /// No session.
    pub(crate) fn none(alloc: Global) -> Handle
        ensures none { result.value ≡ None }
    {
        let at = ptr::null_mut();
        Handle { at, alloc }
    }

    /// The session in a box.
    pub(crate) fn of(session: Box<Session>) -> Handle
        ensures value { result.value ≡ Some session.value }
    {
        Handle::wrap(Loose::of(session))
    }

    /// The box again.
    pub(crate) fn into_box(self) -> Box<Session>
        requires some { IsSome self.value }
        ensures value { Some result.value ≡ self.value }
    {
        self.unwrap().into_box()
    }

    /// Where there is none, nothing is left to free.
    pub(crate) fn let_go(self)
        requires none { self.value ≡ None }
    {
        let Handle { at: _, alloc: _ } = self;
    }

    fn wrap(loose: Loose<Session, Global>) -> Handle
        ensures value { result.value ≡ Some loose.value }
    {
        let Loose { at, alloc } = loose;
        let at = at as *mut u8;
        Handle { at, alloc }
    }

    fn unwrap(self) -> Loose<Session, Global>
        requires some { IsSome self.value }
        ensures value { Some result.value ≡ self.value }
    {
        let Handle { at, alloc } = self;
        let at = at as *mut Session;
        Loose { at, alloc }
    }
}
