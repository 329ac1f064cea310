//! What `make` and `bench` of the program stand on beside the generator and the player of scripts: the words that ask for a script of so many
//! points, a sink that keeps an output, and the lines that tell how large it is. Which words ask for what is in `specs/Asks.antt`, how an
//! output is cut into its sections in `specs/Sections.antt`, and what is told of it in `specs/Tally.antt`.
#![tactic(auto)]

mod asking;
mod cutting;
mod keeping;
mod laws;
mod tallying;

pub use asking::read_numbers;
pub use keeping::KeptOutput;
pub use laws::sections_are_read_back;
pub use tallying::tally;
