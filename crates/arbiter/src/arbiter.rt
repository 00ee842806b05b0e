// The interface of an arbiter: one question, and the rule that its answers follow.
ghost use Rattle.arbiter.specs.Rule.{Rule, Exists, Granted};

use crate::Entry;

// An arbiter's state is its own value. Its rule maps a state, a link and a list to a place and to the state after; the
// law says that on a proper list the place is in the list.
pub trait Arbiter {
    ghost rule: { Rule Self };

    // The place of the entry that is granted the link; on an improper list none, and `self` is unchanged.
    fn grant(&mut self, link: usize, entries: &[Entry]) -> Option<usize>
        ensures { Granted rule self.old self.new link entries.now result };

    ghost exists: { Exists rule };
}
