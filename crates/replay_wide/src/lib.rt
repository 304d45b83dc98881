#![tactic(auto)]

// A call for each operation that changes the most: `partition_marked_with`, and the signatures of a state. The slices that one may change
// are called a, b, c and so on, in the order of its parameters; those of a signature are the labels and blocks of the result, and then the
// work slices.
pub mod dividing;
pub mod signing;
pub mod walking;
