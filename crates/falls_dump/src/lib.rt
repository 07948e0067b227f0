// Reading headers and records, rewriting, and writing headers: that a program which changes nothing of what is lent to it falls, and what
// a header judges first. Statements in specs/Stated.antt. No code.
#![tactic(auto)]
