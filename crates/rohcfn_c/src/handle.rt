// What C holds: a pointer that is null, or leads to a session on the heap.
ghost use Rattle.std.specs.Prelude.{◌≡◌, option_map};
ghost use Rattle.std.specs.declared.option.Option.{Option};
ghost use Rattle.std.specs.declared.option.Option.TheVariants.{None, Some};
ghost use Rattle.rohcfn_c.specs.declared.opened.Opened.{Opened};
ghost use Rattle.rohcfn_c.specs.contracts.opened.Opened.{the_row as session_row};
ghost use Rattle.rohcfn_c.specs.Held.{held_at};
ghost use Rattle.std.specs.Coded.{coded_option};

use crate::loose::Loose;
use crate::opened::Opened;
use std::alloc::Global;
use std::marker::Model;
use std::ptr::null_mut;

/// A handle: null, or the only way to a session. C sets its bytes to zero before its first use.
#[repr(C)]
pub struct Handle {
    at: *mut u8,
    alloc: Global,
    pub ghost session: { Option Opened } by { coded_option session_row.coded },
}

impl Model for Handle {
    ghost also_owns = { λ h. held_at session_row h.alloc h.at h.session };
}

impl Handle {
    pub(crate) fn none(alloc: Global) -> Handle
        ensures { result.session ≡ None }
    {
        Handle {
            at: null_mut(),
            alloc,
        }
    }

    pub(crate) fn of(session: Loose<Opened, Global>) -> Handle
        ensures { result.session ≡ Some session.value }
    {
        let Loose { at, alloc } = session;
        Handle {
            at: at as *mut u8,
            alloc,
        }
    }

    pub(crate) fn into_loose(self) -> Option<Loose<Opened, Global>>
        ensures { option_map (λ l. l.value) result ≡ self.session }
    {
        let Handle { at, alloc } = self;
        if at.is_null() {
            None
        } else {
            Some(Loose {
                at: at as *mut Opened,
                alloc,
            })
        }
    }

    pub(crate) fn into_box(self) -> Option<Box<Opened>>
        ensures { option_map (λ b. b.value) result ≡ self.session }
    {
        match self.into_loose() {
            Some(loose) => Some(loose.into_box()),
            None => None,
        }
    }

    /// Takes the session out; the handle is null then.
    pub(crate) fn take(&mut self, alloc: Global) -> Option<Box<Opened>>
        ensures taken { option_map (λ b. b.value) result ≡ self.old.session }
        ensures none { self.new.session ≡ None }
    {
        std::mem::replace(self, Handle::none(alloc)).into_box()
    }

    /// Puts a session in. What the handle held is closed.
    pub(crate) fn put(&mut self, session: Box<Opened>)
        ensures { self.new.session ≡ Some session.value }
    {
        drop(std::mem::replace(self, Handle::of(Loose::of(session))));
    }
}

// It may go to another thread, as what it leads to may.
unsafe impl Send for Handle {}

impl Drop for Handle {
    fn drop(self) {
        drop(self.into_box());
    }
}
