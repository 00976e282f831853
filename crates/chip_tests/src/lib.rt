// Tests of the chip by its public calls alone. There is nothing here but tests.
#![tactic(auto)]

#[cfg(test)]
mod accesses;
#[cfg(test)]
mod bench;
#[cfg(test)]
mod both;
#[cfg(test)]
mod figures;
#[cfg(test)]
mod frames;
#[cfg(test)]
mod interrupts;
#[cfg(test)]
mod parities;
#[cfg(test)]
mod rates;
#[cfg(test)]
mod registers;
#[cfg(test)]
mod resets;
#[cfg(test)]
mod script;
#[cfg(test)]
mod status;
