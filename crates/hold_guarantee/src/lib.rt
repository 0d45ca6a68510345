// What holds after every list of hold adds, as a theorem over the hold's definitions in specs/; there is no code here. A hold's run
// is a run of its store, each hold add an add and perhaps a dec, so the list guarantee speaks of it too.
#![tactic(auto)]
