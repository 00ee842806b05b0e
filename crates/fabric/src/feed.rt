// The token of an open feed.

// Shown to `inject` while a feed is open, and spent by `close`. It bears no mark of its fabric: whichever is shown, the
// fabric's own state decides. A feed ends only by `close`: the type is neither `Copy` nor `Drop`, so the check refuses
// to let one go.
pub struct Feed {
    seal: (),
}

impl Feed {
    pub(crate) fn new() -> Feed {
        Feed { seal: () }
    }

    pub(crate) fn spend(self) {
        let Feed { seal: _ } = self;
    }
}
