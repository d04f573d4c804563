//! What C has of a session.

ghost use Rattle.std.specs.Prelude.{◌≡◌, Option, Some, None, is_some, option_map, true};
ghost use Rattle.lizhakoven.specs.HeldSessions.{HeldValue};

use crate::boxed::Loose;
use crate::held::HeldSession;
use std::alloc::Global;
use std::marker::Model;
use std::mem;

/// A session, as C has it: open, where it owns one, or closed.
#[repr(C)]
#[derive(Drop)]
pub struct SessionHandle {
    at: *mut u8,
    is_open: bool,
    ghost value: { Option HeldValue },
}

impl Model for SessionHandle {
    ghost use Rattle.lizhakoven.specs.Handles.{owned_by};
    ghost use Rattle.lizhakoven.specs.contracts.held.HeldSession.{the_row};

    ghost also_owns = { λ h. owned_by the_row h.at h.is_open h.value };
}

impl SessionHandle {
    /// A closed handle.
    pub fn closed() -> SessionHandle
        ensures { result.value ≡ None }
    {
        let mut nothing = 0u8;
        SessionHandle {
            at: &raw mut nothing,
            is_open: false,
        }
    }

    /// The handle, and whether it is open.
    fn told(self) -> (SessionHandle, bool)
        ensures same { result.0 ≡ self }
        ensures told { (result.1 ≡ self.is_open) × (self.is_open ≡ is_some self.value) }
    {
        let SessionHandle { at, is_open } = self;
        (SessionHandle { at, is_open }, is_open)
    }

    /// What an open handle owns.
    fn into_loose(self, alloc: Global) -> Loose<HeldSession, Global>
        requires { self.is_open ≡ true }
        ensures { Some result.value ≡ self.value }
    {
        let SessionHandle { at, is_open: _ } = self;
        Loose {
            at: at as *mut HeldSession,
            alloc,
        }
    }

    /// An open handle that owns a session.
    fn of_loose(loose: Loose<HeldSession, Global>) -> SessionHandle
        ensures { result.value ≡ Some loose.value }
    {
        let Loose { at, alloc: _ } = loose;
        SessionHandle {
            at: at as *mut u8,
            is_open: true,
        }
    }

    /// Takes the session of a handle, if it is open, and leaves it closed.
    pub fn take(&mut self, alloc: Global) -> Option<Box<HeldSession>>
        ensures taken { option_map (λ session. session.value) result ≡ self.old.value }
        ensures closed { self.new.value ≡ None }
    {
        let (handle, is_open) = mem::replace(self, SessionHandle::closed()).told();
        if !is_open {
            return None;
        }
        Some(handle.into_loose(alloc).into_box())
    }

    /// Has a handle own a session, in place of what it owned.
    pub fn put(&mut self, session: Box<HeldSession>)
        ensures { self.new.value ≡ Some session.value }
    {
        let _ = mem::replace(self, SessionHandle::of_loose(Loose::of(session)));
    }
}
