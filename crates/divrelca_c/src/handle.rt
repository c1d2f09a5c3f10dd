//! An end that C holds by one pointer.

ghost use Rattle.std.specs.Prelude.{◌≡◌, Option, Some, negsuc};
ghost use Rattle.std.specs.Coded.{coded_option};
ghost use Rattle.divrelca_c.specs.Handles.{handle_owns, place_owns};
ghost use Rattle.divrelca_c.specs.Making.{Leaves};
ghost use Rattle.divrelca_c.specs.contracts.embedded.any_end.AnyEnd.{the_row as end_row};
ghost use Rattle.divrelca_c.specs.declared.embedded.any_end.AnyEnd.{AnyEnd};

use crate::codes::{DONE, MEMORY};
use crate::embedded::AnyEnd;
use std::alloc::Global;
use std::marker::Model;

/// The handle of an end, for C: the pointer of the box that `dv_server_new` or `dv_client_new` made.
#[repr(C)]
pub struct DvEnd {
    at: *mut u8,
    alloc: Global,
    pub ghost value: { AnyEnd } by { end_row.coded },
}

impl Model for DvEnd {
    ghost also_owns = { λ h. handle_owns end_row h.alloc h.at h.value };
}

// An end is used by one thread at a time, whichever it is.
unsafe impl Send for DvEnd {}

impl DvEnd {
    ghost use Rattle.std.specs.Borrow.{Lends, sem};
    ghost use Rattle.divrelca_c.specs.contracts.handle.DvEnd.{the_row as handle_row};

    /// The end, for one call. After the call the handle is a handle of the end as the call left it.
    pub fn state(&mut self) -> &mut AnyEnd
        ensures* lends { sem 𝓛 (Lends handle_row end_row self.entry result (λ last. record self.entry.now { value = last })) }
        ensures value { result.now ≡ self.old.value }
    {
        unsafe { &mut *(self.at as *mut AnyEnd) }
    }

    /// The box, for the call that frees it.
    pub fn into_box(self) -> Box<AnyEnd, Global>
        ensures { result.value ≡ self.value }
    {
        let DvEnd { at, alloc } = self;
        unsafe { Box::from_raw(alloc, at as *mut AnyEnd) }
    }
}

/// A handle for a call that only looks at the end: the bytes of a `DvEnd`. Outside this module it has nothing but `look`.
#[repr(C)]
pub struct DvView {
    end: DvEnd,
}

impl DvView {
    ghost use Rattle.std.specs.Borrow.{sem};
    ghost use Rattle.std.specs.Io.BufRead.{Rests};
    ghost use Rattle.divrelca_c.specs.contracts.handle.DvView.{the_row as view_row};

    /// The end, to look at. It stays as it was.
    pub fn look(&mut self) -> &AnyEnd
        ensures* same { sem 𝓛 (Rests view_row self.entry (λ last. last ≡ self.entry.now)) }
        ensures value { result.now ≡ self.old.end.value }
    {
        self.end.state()
    }
}

/// The place for a new end: the bytes of a `DvEnd`, and an end once the value has one. Before that nothing is said of the bytes.
#[repr(C)]
pub struct DvNewEnd {
    at: *mut u8,
    alloc: Global,
    pub ghost value: { Option AnyEnd } by { coded_option end_row.coded },
}

impl Model for DvNewEnd {
    ghost also_owns = { λ h. place_owns end_row h.alloc h.at h.value };
}

impl DvNewEnd {
    /// The place with the end of this box.
    pub fn of(boxed: Box<AnyEnd, Global>) -> DvNewEnd
        ensures { result.value ≡ Some boxed.value }
    {
        let (at, alloc) = Box::into_raw_with_allocator(boxed);
        DvNewEnd {
            at: at as *mut u8,
            alloc,
        }
    }

    /// Leaves this end here, in a box of its own. Answers `DONE`, or `MEMORY` if memory was refused, and then nothing changes.
    pub fn put(&mut self, alloc: Global, end: AnyEnd) -> i32
        ensures { Leaves (λ place. place.value) (λ left. left ≡ end) (λ code. code ≡ negsuc 0) result self.old self.new }
    {
        match Box::new(alloc, end) {
            Ok(boxed) => {
                *self = DvNewEnd::of(boxed);
                DONE
            }
            Err(_) => MEMORY,
        }
    }
}

impl Drop for DvNewEnd {
    // The value that was there is left to the owner of its pointer.
    fn drop(self) {
        let DvNewEnd { at: _, alloc: _ } = self;
    }
}
