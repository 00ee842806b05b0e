// Tests of the commands of the program `route`.
#![tactic(auto)]

#[cfg(test)]
mod commands;
