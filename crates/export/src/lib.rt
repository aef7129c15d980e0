// The editor's door: what a program in Rust, C or C++ calls of the library, by its plain name. Each
// function passes on one public function of the crates below, and has its promise.
//
// A slice is a pointer and a length, a struct goes by value, and an array as a result stands in a
// struct. Whoever declares them elsewhere, as host/ does, repeats each struct field by field.
#![tactic(auto)]

mod layout;
mod plans;
mod registers;
mod screens;
mod sheets;
mod sitings;
mod stations;
