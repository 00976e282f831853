// Worked figures of the chip and the board, computed inside the proof over the definitions that the contracts use.
#![tactic(auto)]

ghost use Rattle.std.specs.Prelude.{◌≡◌};
ghost use Rattle.figures.specs.BoardFigures.{BoardFigures};
ghost use Rattle.figures.specs.Figures.{Figures, first_bytes};

use dacia::chip::PoweredChip;
use terms::refusal::Refusal;

// The first two bytes that a program reads from a reset chip: ISR1 and CSR1.
#[derive(Clone, Copy)]
pub struct FirstBytes {
    pub isr: u8,
    pub csr: u8,
}

// Resets a chip and reads ISR1 and CSR1 of it. The contract has the other figures too, which are computed from the definitions.
pub fn first_bytes() -> Result<FirstBytes, Refusal>
    ensures bytes { result ≡ first_bytes }
    ensures figures { Figures × BoardFigures }
{
    let mut chip = PoweredChip::power_on().reset();
    let isr = chip.read(0)?.byte;
    let csr = chip.read(1)?.byte;
    Ok(FirstBytes { isr, csr })
}
