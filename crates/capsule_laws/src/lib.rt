// What holds of the capsule grammar, the book and the reader: see specs/Claims.antt.
#![tactic(auto)]
