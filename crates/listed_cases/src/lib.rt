// Table P of document 01: the listed cases, proved by one statement. No functions: the cases are in specs/, the statement in proofs/.
#![tactic(auto)]
