// Tests of the board and of the lines by their public calls alone. There is nothing here but tests.
#![tactic(auto)]

#[cfg(test)]
mod lines;
#[cfg(test)]
mod set_up;
#[cfg(test)]
mod sweeps;
#[cfg(test)]
mod twins;
#[cfg(test)]
mod words;
