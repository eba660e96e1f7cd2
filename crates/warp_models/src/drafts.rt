//! How a model sends.
ghost use Rattle.std.specs.Prelude.{◌≡◌, ◌+◌, ◌++◌, OnOk};
ghost use Rattle.warp_models.specs.Sends.{in_time};

use std::alloc::AllocError;
use warp_base::{Draft, Payload};

/// Sends a draft, unless 64 bits don't hold its time.
pub fn send<P: Payload>(
    out: &mut Vec<Draft<P>>,
    now: u64,
    delay: u64,
    receiver: u32,
    kind: u64,
    payload: P,
) -> Result<(), AllocError>
    ensures { OnOk result (out.new.items ≡ out.old.items ++ in_time (record {
      time = now + delay;
      priority = 0;
      receiver = receiver;
      kind = kind;
      payload = payload;
    })) }
{
    if let Some(time) = now.checked_add(delay) {
        out.push(Draft {
            time,
            priority: 0,
            receiver,
            kind,
            payload,
        })?;
    }
    Ok(())
}
