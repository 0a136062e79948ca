//! The tests of what no command line of the program reaches. Their bodies stand in libraries, since a program takes several
//! times as long to prove.
#![tactic(auto)]

// Public calls that the program does not make.
#[cfg(test)]
mod library;
// One allocation is refused.
#[cfg(test)]
mod refused;
// The worked rows, over the library.
#[cfg(test)]
mod rows;
// A machine that stops.
#[cfg(test)]
mod stops;
