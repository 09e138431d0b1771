//! A place for an object that a C program holds.

ghost use Rattle.std.specs.Prelude.{◌≡◌, Option, Some, None, IsSome, is_some};
ghost use Rattle.std.specs.Option.{option_map};
ghost use Rattle.std.specs.Borrow.{sem};
ghost use Rattle.jilqamur.specs.Handles.{answer_of};
ghost use Rattle.jilqamur.specs.Owned.{owned, object_coded};
ghost use Rattle.jilqamur.specs.declared.object.Object.{Object};

use crate::codes;
use crate::object::Object;
use crate::parts::Parts;
use std::alloc::Global;
use std::marker::Model;
use std::{mem, ptr};

/// A place that owns an object, or nothing. One that is let go while it owns some never frees it.
#[repr(C)]
#[derive(Drop)]
pub struct Place {
    at: *mut u8,
    alloc: Global,
    pub ghost object: { Option Object } by { object_coded },
}

impl Model for Place {
    ghost also_owns = { λ p. owned p.alloc p.at p.object };
}

impl Place {
    ghost use Rattle.jilqamur.specs.Lending.{LendsObject};

    /// What it holds, lent.
    ///
    /// # Conditions
    /// It holds something.
    pub(crate) fn held(&mut self) -> &mut Object
        requires { IsSome self.old.object }
        ensures* writes_back { sem 𝓛 (LendsObject self.entry result) }
        ensures value { self.old.object ≡ Some result.now }
    {
        unsafe { &mut *(self.at as *mut Object) }
    }

    fn of_parts(parts: Parts<Object, Global>) -> Place
        ensures { result.object ≡ Some parts.value }
    {
        let Parts { ptr, alloc } = parts;
        Place {
            at: ptr as *mut u8,
            alloc,
        }
    }

    fn into_parts(self) -> Parts<Object, Global>
        requires { IsSome self.object }
        ensures { self.object ≡ Some result.value }
    {
        let Place { at, alloc } = self;
        Parts {
            ptr: at as *mut Object,
            alloc,
        }
    }

    fn empty(at: *mut u8, alloc: Global) -> Place
        ensures { result.object ≡ None }
    {
        Place { at, alloc }
    }
}

/// What each handle is: open or closed; all bytes of one that is closed may be 0.
#[repr(C)]
#[derive(Drop)]
pub struct Slot {
    full: bool,
    /// Where it is held.
    pub place: Place,
    ghost sound: { full ≡ is_some place.object },
}

impl Slot {
    /// Whether it holds something.
    pub(crate) fn is_open(&self) -> bool
        ensures { result ≡ is_some self.now.place.object }
    {
        self.full
    }

    /// Takes the contents out.
    pub(crate) fn take(&mut self, alloc: Global) -> Option<Box<Object>>
        ensures taken { option_map (λ b. b.value) result ≡ self.old.place.object }
        ensures empty { self.new.place.object ≡ None }
    {
        let at = ptr::null_mut::<u8>();
        let place = Place::empty(at, alloc);
        let Slot { full, place } = mem::replace(self, Slot { full: false, place });
        if full {
            Some(place.into_parts().into_box())
        } else {
            None
        }
    }

    /// Holds this from now on.
    ///
    /// # Conditions
    /// It holds nothing.
    pub(crate) fn put(&mut self, value: Box<Object>)
        requires { self.old.place.object ≡ None }
        ensures { self.new.place.object ≡ Some value.value }
    {
        let place = Place::of_parts(Parts::of(value));
        let _empty = mem::replace(self, Slot { full: true, place });
    }

    /// Frees its contents and returns `OK`, or `CLOSED` if it was closed; from now on it is closed.
    pub(crate) fn close(&mut self, alloc: Global) -> u32
        ensures held { result ≡ answer_of self.old.place.object }
        ensures empty { self.new.place.object ≡ None }
    {
        match self.take(alloc) {
            Some(_) => codes::OK,
            None => codes::CLOSED,
        }
    }
}
