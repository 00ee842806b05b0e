// Whether packets may be fed in: not yet, now, or no more.
#[derive(Clone, Copy, PartialEq, Eq, Debug)]
pub enum FeedState {
    Unopened,
    Open,
    Closed,
}
