// That a policy's spelling is as long as every text of that policy.
#![tactic(auto)]
