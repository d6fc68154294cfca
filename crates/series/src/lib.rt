// Whole runs of the calls: this crate has no code, but what is promised of sittings, of decoders and of lists.

#![tactic(auto)]
