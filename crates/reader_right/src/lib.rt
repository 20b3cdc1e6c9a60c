// What calls of the reader come to is proved here; the code is in crate reader. The definitions are in specs/, and the theorems in proofs/.
#![tactic(auto)]
