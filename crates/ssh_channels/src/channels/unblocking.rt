//! The replies that were owed.

ghost use Rattle.std.specs.Prelude.{◌≡◌, ◌∷◌, [], option_map, IfSome, IfNone};
ghost use Rattle.ssh_model.specs.State.Channels.Kept.{Unblocks};
ghost use Rattle.ssh_channels.specs.Values.{reply_of};
ghost use Rattle.ssh_channels.specs.Sessions.{UnblocksInSession};

use super::Channels;
use crate::Reply;
use ssh_model::laws;

impl Channels {
    /// The oldest reply that is owed, once this end is no longer within a key exchange of its own; `None` if none is owed. A CLOSE that is
    /// given frees its number.
    pub fn unblock(&mut self) -> Option<Reply>
        ensures given { Unblocks self.old (option_map reply_of result) self.new }
        ensures in_session { UnblocksInSession self.old result self.new }
    {
        laws::connection::owed_replies_given();
        self.give_owed()
    }

    // The oldest reply leaves the queue, and a CLOSE its channel.
    #[tactic(auto, using(crate::proofs::Unblocking::given, crate::proofs::Unblocking::none_given))]
    fn give_owed(&mut self) -> Option<Reply>
        ensures { Unblocks self.old (option_map reply_of result) self.new }
    {
        match self.pop_owed() {
            Some(Reply::Close { channel, recipient }) => {
                self.table.remove(channel);
                Some(Reply::Close { channel, recipient })
            }
            Some(Reply::OpenFailure { recipient }) => Some(Reply::OpenFailure { recipient }),
            None => None,
        }
    }

    // The oldest reply leaves the queue.
    fn pop_owed(&mut self) -> Option<Reply>
        ensures oldest { IfSome result (λ reply. self.old ≡ record self.new { owed = reply_of reply ∷ self.new.owed }) }
        ensures empty { IfNone result (self.old.owed ≡ []) }
        ensures kept { IfNone result (self.new ≡ self.old) }
    {
        match self.owed.pop_front() {
            Some(reply) => Some(reply),
            None => None,
        }
    }
}
