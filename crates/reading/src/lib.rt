// What is proved of the reader of XML text has no code here: everything is in specs/.
#![tactic(auto)]
