// Nothing runs here: specs/Demands.antt states the three demands of what the functions of the other crates promise.

#![tactic(auto)]
