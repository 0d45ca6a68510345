// What holds after every list of calls, as theorems over document 01's definitions in specs/; there is no code here.
//
// Guarantee.antt says it, clause by clause, of the calls bound in Calls.antt, which are the definitions that the contracts of the
// store's functions equate with what the program does: result, record and every lent slice, refused or not. The crate program_runs
// shows that a program which opens a store and hands each call the record and memory as the last one left them runs through the
// very stores of which Theorem.antt speaks.
#![tactic(auto)]
