// Small runs worked out from the bytes of their files. The function stands here for its contract, which is the claim.
#![tactic(auto)]

pub mod cases;
