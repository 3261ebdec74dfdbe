// Beside the calls: an order among patterns, over the answers of `finder::cover_test`. What is claimed stands in specs/, its proof in proofs/. There is
// no code here.
#![tactic(auto)]
