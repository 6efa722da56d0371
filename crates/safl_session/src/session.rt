//! Sessions: calls of a circuit, each after the one before is done.

use safl_run::Runner;
use safl_sim::Sim;
use safl_word::Word;
use std::alloc::Global;
use std::marker::Model;

/// The cycle in which `done` is 1, counted from 0 in the cycle of the call's `start`, and the word of `result` in it.
pub use safl_sim::Done as Reply;

/// A simulator whose net is called again and again, as long as each call has a reply.
#[derive(Drop)]
pub struct Session {
    runner: Runner,
    opened: bool,
}

impl Model for Session {
    ghost use Rattle.safl_session.specs.Sessions.{Opened};

    ghost Value = { Opened };

    ghost view = { λ s. record { net = s.runner.net; state = s.runner.state; is_open = s.opened } };
}

impl Session {
    ghost use Rattle.std.specs.Prelude.{◌≡◌, IfSome, IfNone, IfOk, IfErr, is_some, slice_index, true};
    ghost use Rattle.safl_net.specs.Whole.{IsWhole};
    ghost use Rattle.safl_net.specs.Arguments.{AreArguments};
    ghost use Rattle.safl_run.specs.Calls.{Replies, IsSilent};

    /// A session of a net, from the state of its simulator. All memory that calls need is taken here. The error is out
    /// of memory, and hands the simulator back.
    pub fn new(alloc: Global, sim: Sim) -> Result<Session, Sim>
        requires { IsWhole sim.net }
        ensures made { IfOk result (λ s. s ≡ record { net = sim.net; state = sim.state; is_open = true }) }
        ensures refused { IfErr result (λ s. s ≡ sim) }
    {
        Ok(Session {
            runner: Runner::new(alloc, sim)?,
            opened: true,
        })
    }

    /// Whether each call so far had a reply.
    pub fn is_open(&self) -> bool
        ensures { result ≡ self.now.is_open }
    {
        self.opened
    }

    /// Calls the net: in cycle 0 `start` is 1 and the other inputs have the arguments in order; later all inputs are 0.
    /// The reply is that of the first cycle in which `done` is 1; the next call goes on from the state after it. None
    /// if `done` is 0 in all cycles below `limit`; then no further call can be made.
    pub fn call(&mut self, args: &[Word], limit: u64) -> Option<Reply>
        requires is_open { self.old.is_open ≡ true }
        requires arguments { AreArguments self.old.net args.now }
        ensures reply { IfSome result (λ r. Replies self.old.net limit (slice_index self.old.state) args.now r (slice_index self.new.state)) }
        ensures none { IfNone result (IsSilent self.old.net limit (slice_index self.old.state) args.now) }
        ensures net { self.new.net ≡ self.old.net }
        ensures is_open { self.new.is_open ≡ is_some result }
    {
        let reply = self.runner.call(args, limit);
        self.opened = reply.is_some();
        reply
    }
}
