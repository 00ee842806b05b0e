// The law of runs.
ghost use Rattle.switch.specs.Law.{SwitchLaw};

use arbiter::Arbiter;

// The law of runs holds: for this kind of arbiter, over every lawful network, at every depth at which `make` refuses
// nothing, and for every list of calls.
pub fn law_of_runs<A: Arbiter>()
    ensures { SwitchLaw A.rule }
{}
