// Labellings, and routings whose nodes are named by their labels.
#![tactic(auto)]

mod labelling;
mod refusal;
mod relabelling;

pub use labelling::Labelling;
pub use refusal::LabellingRefusal;
pub use relabelling::Relabelling;
