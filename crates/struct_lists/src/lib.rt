// What walks by hand over a lent slice of structs share, as laws of the logic in specs/; there is no code here.
//
// Such functions were walked statement by statement before the checker covered them, and none is now. The laws say nothing of a
// store and nothing of how many slices are lent: Reborrow.antt lends one mutable slice on to a call and takes it back, Slices.antt
// does so for any number of them in one step, Shared.antt hands on slices that are lent shared, Locals.antt holds the slices' locals
// as one entry of the walk's context, and Branches.antt has the tests with one arm.
#![tactic(auto)]
