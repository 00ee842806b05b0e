// Tables of questions for each kind of arbiter.
#![tactic(auto)]

#[cfg(test)]
mod tests;
