//! An object, and the reply to the last of its commands.
ghost use Rattle.std.specs.Prelude.{◌≡◌, ◌<◌};
ghost use Rattle.dym_base.specs.declared.limits.TheConstants.{COUNT_LIMIT};

use crate::object::Object;
use dym_base::Reply;
use dym_chain::LogKeep;
use dym_commands::{Request, Runner};
use dym_heap::replies;
use dym_quota::Supply;
use std::alloc::{AllocError, Global};

/// An object whose commands are run, and the reply to the last of them. It stands in one place, so that no reply is moved. Only
/// memory can be wanting: the command then wasn't run, and the object and the reply are as they were.
pub struct Turn<S: Supply, K: LogKeep> {
    pub alloc: Global,
    pub object: Object<S, K>,
    pub reply: Reply,
}

impl<S: Supply, K: LogKeep> Turn<S, K> {
    /// An object that is to run commands.
    pub fn new(alloc: Global, object: Object<S, K>) -> Turn<S, K>
        ensures { result.object ≡ object }
    {
        Turn {
            alloc,
            object,
            reply: Reply::Done,
        }
    }

    /// The object, once its commands were run.
    pub fn into_object(self) -> Object<S, K>
        ensures { result ≡ self.object }
    {
        let Turn {
            alloc: _,
            object,
            reply: _,
        } = self;
        object
    }
}

impl<S: Supply, K: LogKeep> Runner for Turn<S, K> {
    type Context = S::Way;

    type Fail = AllocError;

    ghost use Rattle.dym_object.specs.Turns.{Ran, Stayed};

    ghost ready = { λ t. t.object.ran < COUNT_LIMIT };

    ghost does = { λ old command new. Ran old.object command new.object new.reply };

    ghost stays = { λ old new. Stayed old.object old.reply new.object new.reply };

    #[inline(always)]
    fn run(&mut self, way: &S::Way, request: Request<&[u8]>) -> Result<(), AllocError> {
        match request {
            Request::Plain(command) => {
                self.object
                    .run_into(way, self.alloc, &command, &mut self.reply)
            }
            Request::Write { h, at, bytes } => {
                self.reply = replies::of_done(self.object.write(h, at, bytes));
                Ok(())
            }
        }
    }
}
