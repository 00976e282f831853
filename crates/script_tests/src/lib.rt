// Tests of the script reader by its public call alone. There is nothing here but tests.
#![tactic(auto)]

#[cfg(test)]
mod answers;
#[cfg(test)]
mod bytes;
#[cfg(test)]
mod lengths;
#[cfg(test)]
mod scripts;
