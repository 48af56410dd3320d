// What `disassemble` prints, `assemble` gives back: the theorem above the two libraries. There is no code here.

#![tactic(auto)]
