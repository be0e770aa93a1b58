//! Memory for replies, kept from run to run, and the error of a run for which it is too small.
ghost use Rattle.std.specs.Prelude.{◌≡◌, ◌<◌, ◌==◌, ◌++◌, [], ◌∷◌, IfOk, Some, length};
ghost use Rattle.wasmi_machine.specs.Replies.{too_many_calls_text};

use crate::calls::Reply;
use std::alloc::{AllocError, Global};
use std::fmt;
use std::marker::Model;

/// The replies of a run, in memory that is kept for those of the next one: `run_into` puts them
/// there, and takes no memory for them.
#[derive(Debug, Drop)]
pub struct Replies {
    replies: Vec<Reply>,
}

impl Model for Replies {
    ghost use Rattle.std.specs.Vec.{vec_capacity};
    ghost use Rattle.wasmi_machine.specs.Replies.{RepliesValue};

    ghost Value = { RepliesValue };

    ghost view = { λ r. record { items = r.replies.items; capacity = vec_capacity r.replies } };
}

impl Replies {
    /// No reply yet, with memory for so many.
    ///
    /// # Errors
    ///
    /// `AllocError` if memory for so many is refused.
    pub fn with_capacity(alloc: Global, capacity: usize) -> Result<Self, AllocError>
        ensures { IfOk result (λ made. made ≡ record { items = []; capacity = capacity }) }
    {
        let replies = Vec::with_capacity(alloc, capacity)?;
        Ok(Replies { replies })
    }

    /// The replies, in the order of the calls.
    pub fn as_slice(&self) -> &[Reply]
        ensures { result.now ≡ self.now.items }
    {
        self.replies.as_slice()
    }

    /// How many replies there are.
    pub fn len(&self) -> usize
        ensures { result ≡ length self.now.items }
    {
        self.replies.len()
    }

    /// Whether there is no reply.
    pub fn is_empty(&self) -> bool
        ensures { result ≡ (length self.now.items == 0) }
    {
        self.replies.is_empty()
    }

    /// For how many replies there is memory, those that are there included.
    pub fn capacity(&self) -> usize
        ensures { result ≡ self.now.capacity }
    {
        self.replies.capacity()
    }

    /// Drops all replies, and keeps the memory.
    pub(crate) fn clear(&mut self)
        ensures { self.new ≡ record self.old { items = [] } }
    {
        self.replies.clear();
    }

    /// Adds a reply, for which there is memory.
    pub(crate) fn push(&mut self, reply: Reply)
        requires room { length self.old.items < self.old.capacity }
        ensures added { self.new ≡ record self.old { items = self.old.items ++ reply ∷ [] } }
    {
        self.replies.push_reserved(reply);
    }
}

/// Why `run_into` doesn't execute a list: it has more calls than there is memory for replies.
#[derive(Clone, Copy, Debug, PartialEq, Eq)]
pub struct TooManyCalls;

impl fmt::Display for TooManyCalls {
    ghost output = { λ error. Some too_many_calls_text };

    fn fmt<W: fmt::Write>(&self, f: &mut fmt::Formatter<W>) -> fmt::Result {
        f.write_str("more calls than there is memory for replies")
    }
}

impl std::error::Error for TooManyCalls {}
