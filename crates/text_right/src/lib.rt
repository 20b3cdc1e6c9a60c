// What is proved of the models of the code that reads XML text has no code here: the definitions are in specs/, and the theorems in proofs/.
#![tactic(auto)]
