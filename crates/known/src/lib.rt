// Beside the floors: the strings with known results, as one table under one theorem, in specs/ and proofs/. There is no code here.
#![tactic(auto)]
