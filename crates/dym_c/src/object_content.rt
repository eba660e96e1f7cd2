//! What an object that C keeps has inside.
ghost use Rattle.std.specs.Prelude.{◌≡◌};
ghost use Rattle.dym_undo_object.specs.Meaning.{UndoObjectMeaning};

use crate::heap_copy::HeapCopy;
use dym_quota::FixedSupply;
use dym_undo_object::UndoObject;
use std::marker::Model;

/// An object whose areas have one segment of a region each, and its undo log.
pub(crate) type Process = UndoObject<FixedSupply>;

/// An object that gives all its memory back where it is dropped.
pub struct ObjectContent {
    pub(crate) object: Process,
    /// Of an object that is checked, the heap as its newest log brings it back. No contract speaks of it.
    pub(crate) copy: Option<HeapCopy>,
}

impl Model for ObjectContent {
    ghost use Rattle.std.specs.Coded.{codes};
    ghost use Rattle.dym_heap.specs.Meaning.{live_code, touched_code};
    ghost use Rattle.dym_undo_object.specs.Meaning.{UndoObjectMeaning};

    ghost Value = { UndoObjectMeaning };

    ghost coded = { Prim.hlevel (codes, live_code, touched_code) };

    ghost view = { λ i. i.object };
}

impl ObjectContent {
    /// Looks for what was written and not told before, where the object is checked: its newest log is going to be another.
    #[inline(always)]
    pub(crate) fn look(&mut self)
        ensures { self.new ≡ self.old }
    {
        if let Some(copy) = &mut self.copy {
            copy.look(&self.object);
        }
    }

    /// Copies the heap, where the object is checked: its newest log was taken just now, or brought back.
    #[inline(always)]
    pub(crate) fn copy_heap(&mut self)
        ensures { self.new ≡ self.old }
    {
        if let Some(copy) = &mut self.copy {
            copy.take(self.object.heap());
        }
    }

    /// Copies the heap, where the object is checked and nothing was changed since its newest log.
    #[inline(always)]
    pub(crate) fn copy_logged_heap(&mut self)
        ensures { self.new ≡ self.old }
    {
        if self.copy.is_some() && self.object.changed() == 0 {
            self.copy_heap();
        }
    }
}

impl Drop for ObjectContent {
    fn drop(self) {
        let ObjectContent { object, copy: _ } = self;
        object.end(&()).close();
    }
}
