// A program's calls as the list guarantee sees them, in specs/, and theorems about them, in proofs/; there is no code here.
//
// Ran.antt has a constructor for each changing call of the store, and for the opening, whose premise is the equation of that call's
// contract, at the slices as the call found and left them. RanLaws.antt shows that a program which hands each call the record and the memory as the last one left
// them leaves the store, and is given the answers, of which the guarantee speaks.
#![tactic(auto)]
