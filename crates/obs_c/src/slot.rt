// What C holds.
ghost use Rattle.std.specs.Prelude.{◌≡◌, MatchOption, None, Some};
ghost use Rattle.obs_c.specs.inner.Kept.{is_kept};

use crate::handle::Handle;
use obs_edit::Session;
use std::alloc::Global;
use std::mem;

/// A session that stays between calls, or none.
#[repr(C)]
pub struct Slot {
    pub handle: Handle,
    pub full: bool,
    ghost tied: { full ≡ is_kept handle.value },
}

impl Slot {
    fn with(session: Box<Session>) -> Slot
        ensures value { result.handle.value ≡ Some session.value }
    {
        Slot {
            handle: Handle::of(session),
            full: true,
        }
    }

    fn empty(alloc: Global) -> Slot
        ensures none { result.handle.value ≡ None }
    {
        Slot {
            handle: Handle::none(alloc),
            full: false,
        }
    }

    fn into_box(self) -> Option<Box<Session>>
        ensures value { MatchOption result (self.handle.value ≡ None) (λ session. self.handle.value ≡ Some session.value) }
    {
        let Slot { handle, full } = self;
        if full {
            Some(handle.into_box())
        } else {
            handle.let_go();
            None
        }
    }

    /// The session, of which nothing stays.
    pub(crate) fn take(&mut self, alloc: Global) -> Option<Box<Session>>
        ensures taken { MatchOption result (self.old.handle.value ≡ None)
            (λ session. self.old.handle.value ≡ Some session.value) }
        ensures none { self.new.handle.value ≡ None }
    {
        mem::replace(self, Slot::empty(alloc)).into_box()
    }

    /// The session stays. One that stayed before is dropped.
    pub(crate) fn put(&mut self, session: Box<Session>)
        ensures value { self.new.handle.value ≡ Some session.value }
    {
        let _before = mem::replace(self, Slot::with(session)).into_box();
    }
}
