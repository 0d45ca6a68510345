// What holds after every list of sets, as a theorem over the product's definitions in specs/; there is no code here. A product's run
// is its store's run on the filled sets, so the list guarantee speaks of it too.
#![tactic(auto)]
