// The mode that a state draws in.
ghost use Rattle.std.specs.Prelude.{◌≡◌, ◌%◌};
ghost use Rattle.ula_mode.specs.Modes.{timex_mode, mode_of, is_lores, is_hires, is_missing};

use state::{Ports, Ula};

// How the bank is read: LoRes, the Timex modes 0, 1, 2 and 6, or not at all.
#[derive(Clone, Copy)]
pub enum Mode {
    Lores,
    Standard,
    Second,
    HighColour,
    HighResolution,
    Missing,
}

// The port's low three bits pick the address rule, or the refusal.
#[tactic(auto, unfolding(crate::specs::Modes::timex_mode))]
fn timex_mode(port: u8) -> Mode
    ensures { result ≡ timex_mode (port % 8) }
{
    let value = port % 8;
    match value {
        0 => Mode::Standard,
        1 => Mode::Second,
        2 => Mode::HighColour,
        6 => Mode::HighResolution,
        _ => Mode::Missing,
    }
}

// LoRes is judged first, then whether Timex modes are allowed.
#[tactic(auto, unfolding(crate::specs::Modes::mode_of))]
pub fn mode_of(u: Ula, ports: Ports) -> Mode
    ensures { result ≡ mode_of u ports }
{
    if state_bits::lores_on(u) {
        return Mode::Lores;
    }
    if state_bits::timex_on(u) {
        timex_mode(ports.timex)
    } else {
        Mode::Standard
    }
}

impl Mode {
    pub fn is_lores(self) -> bool
        ensures { result ≡ is_lores self }
    {
        matches!(self, Mode::Lores)
    }

    // Mode 6, which shows 512 dots and not 256 pixels.
    pub fn is_hires(self) -> bool
        ensures { result ≡ is_hires self }
    {
        matches!(self, Mode::HighResolution)
    }

    pub fn is_missing(self) -> bool
        ensures { result ≡ is_missing self }
    {
        matches!(self, Mode::Missing)
    }
}
