// The feed of a fabric.
ghost use Rattle.std.specs.Prelude.{◌≡◌};
ghost use Rattle.switch.specs.Calls.Answer.{done, number};
ghost use Rattle.switch.specs.Calls.Call.{open_feed, inject, close_feed};
ghost use Rattle.fabric.specs.Fabrics.{Answered, Asked, May, opened, numbered, closed};

use crate::fabric::Fabric;
use crate::feed::Feed;
use crate::refusal::Refusal;
use arbiter::Arbiter;
use network::Routing;
use switch::FeedState;

impl<R: Routing, A: Arbiter> Fabric<R, A> {
    // Opens the feed, once.
    pub fn open(&mut self) -> Result<Feed, Refusal>
        ensures { Answered A.rule open_feed self.old self.new (opened result) }
    {
        self.may_open()?;
        self.mark_open();
        Ok(Feed::new())
    }

    // Takes a packet in at its source, and answers its number, counted from 0. Source and destination are two numbers, since
    // the form of the call is fixed.
    pub fn inject(
        &mut self,
        _feed: &Feed,
        source: usize,
        destination: usize,
    ) -> Result<usize, Refusal>
        ensures { Answered A.rule (inject source destination) self.old self.new (numbered result) }
    {
        self.may_inject(source, destination)?;
        Ok(self.take_in(source, destination))
    }

    // Closes the feed. The token is spent either way.
    pub fn close(&mut self, feed: Feed) -> Result<(), Refusal>
        ensures { Answered A.rule close_feed self.old self.new (closed result) }
    {
        feed.spend();
        self.may_close()?;
        self.mark_closed();
        Ok(())
    }

    // Was the feed not opened before? Each question speaks of its own call of the definition, and so do the marks below: one
    // function for two would have a contract by cases, and be no plainer.
    fn may_open(&self) -> Result<(), Refusal>
        ensures { Asked A.rule open_feed self.now result }
    {
        if self.body.feed != FeedState::Unopened {
            return Err(Refusal::OpenedBefore);
        }
        Ok(())
    }

    // The feed of a fabric that was not opened before is open.
    fn mark_open(&mut self)
        requires may { May open_feed self.old }
        ensures { Answered A.rule open_feed self.old self.new done }
    {
        self.body.feed = FeedState::Open;
    }

    // Is the feed open, are source and destination nodes, were fewer than 60,000 packets taken in, and has the injection
    // buffer room?
    fn may_inject(&self, source: usize, destination: usize) -> Result<(), Refusal>
        ensures { Asked A.rule (inject source destination) self.now result }
    {
        if self.body.feed != FeedState::Open {
            return Err(Refusal::NotOpen);
        }
        let sizes = self.body.sizes;
        if source >= sizes.nodes {
            return Err(Refusal::Source);
        }
        if destination >= sizes.nodes {
            return Err(Refusal::Destination);
        }
        if self.body.taken >= 60_000 {
            return Err(Refusal::PacketLimit);
        }
        if self.body.queues.len(sizes.buffers - sizes.nodes + source) >= sizes.depth {
            return Err(Refusal::Full);
        }
        Ok(())
    }

    // Takes a packet in that no question refuses.
    fn take_in(&mut self, source: usize, destination: usize) -> usize
        requires may { May (inject source destination) self.old }
        ensures { Answered A.rule (inject source destination) self.old self.new (number result) }
    {
        let b = self.body.sizes.buffers - self.body.sizes.nodes + source;
        self.body.take_in(b, source as u8, destination as u8)
    }

    // Is the feed open?
    fn may_close(&self) -> Result<(), Refusal>
        ensures { Asked A.rule close_feed self.now result }
    {
        if self.body.feed != FeedState::Open {
            return Err(Refusal::NotOpen);
        }
        Ok(())
    }

    // The feed of a fabric that was open is closed.
    fn mark_closed(&mut self)
        requires may { May close_feed self.old }
        ensures { Answered A.rule close_feed self.old self.new done }
    {
        self.body.feed = FeedState::Closed;
    }
}
