// The order of each call's refusals, as data: see specs/Orders.antt and specs/Claims.antt.
#![tactic(auto)]
