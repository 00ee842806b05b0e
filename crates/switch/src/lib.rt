// The switch as a definition, and the law of its runs. The definition and the law stand in specs/; the code here is the
// records that they share with the running fabric, and the function that carries the law.
#![tactic(auto)]

mod feed_state;
mod grant;
mod law;
mod report;

pub use feed_state::FeedState;
pub use grant::Grant;
pub use law::law_of_runs;
pub use report::Report;
