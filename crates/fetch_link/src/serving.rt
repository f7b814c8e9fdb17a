use crate::hearing::{Heard, Hearing, hear, no_head};
use std::alloc::Global;
use std::mem;
use text_types::{Bytes, Memory, Text};

/// What the bytes of a request so far ask.
#[derive(Debug, Drop)]
pub enum Asked {
    /// More bytes are to come.
    Wants,
    Whole {
        method: Text,
        path: Text,
        body: Bytes,
    },
    /// The status that refuses it.
    Bad {
        status: u16,
    },
}

/// A request, as its bytes come.
#[derive(Debug, Drop)]
pub struct Request {
    alloc: Global,
    heard: Heard,
}

impl Request {
    ghost use Rattle.std.specs.Prelude.{◌++◌, [], ℕ, List, IfOk};
    ghost use Rattle.fetch_link.specs.Serving.{AskedGives, HasHeard};

    /// A request of which nothing came.
    pub fn start(alloc: Global) -> Request
        ensures { HasHeard result [] }
    {
        Request {
            alloc,
            heard: Heard::Head(no_head(alloc)),
        }
    }

    /// Takes further bytes. No earlier call may have answered `Whole`, `Bad` or out of memory.
    pub fn poll(&mut self, bytes: &[u8]) -> Result<Asked, Memory>
        ensures { (seen : List ℕ) → HasHeard self.old seen → IfOk result (λ asked. AskedGives asked self.new (seen ++ bytes.now)) }
    {
        let alloc = self.alloc;
        let heard = mem::replace(&mut self.heard, Heard::Head(no_head(alloc)));
        match hear(alloc, heard, bytes)? {
            Hearing::Wants(heard) => {
                self.heard = heard;
                Ok(Asked::Wants)
            }
            Hearing::Asks { method, path, body } => Ok(Asked::Whole { method, path, body }),
            Hearing::Refuses(status) => Ok(Asked::Bad { status }),
        }
    }
}
