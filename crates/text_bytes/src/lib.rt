// A quoted text as bytes: see specs/Text.antt.
#![tactic(auto)]
