ghost use Rattle.std.specs.Prelude.{◌≡◌, ◌≤◌, ◌<◌, ◌-ℤ◌};

use crate::settings::{Direction, PcompSettings, Reference};
use pb_buses::Inputs;
use pb_names::{pcomp, pcomp_state};

/// What a PCOMP waits for.
#[derive(Clone, Copy, Debug, PartialEq, Eq)]
pub enum PcompState {
    WaitEnable,
    WaitDir,
    WaitPreStart,
    WaitRising,
    WaitFalling,
}

/// The direction in which positions are counted.
#[derive(Clone, Copy, Debug, PartialEq, Eq)]
pub enum Sign {
    Positive,
    Negative,
}

/// What ticks change of a PCOMP.
#[derive(Clone, Copy, Debug, PartialEq, Eq)]
pub struct PcompRegisters {
    /// STATE.
    pub state: PcompState,
    /// OUT.
    pub out: bool,
    /// ACTIVE.
    pub active: bool,
    /// PRODUCED: the pulses of this run that have fallen.
    pub produced: u32,
    /// The position at which ENABLE rose.
    pub origin: i32,
    /// The position from which pulses are counted.
    pub base: i64,
    pub sign: Sign,
    /// ENABLE as it was seen at the tick before.
    pub enable_before: bool,
}

impl PcompState {
    ghost use Rattle.pb_pcomp.specs.Pcomp as definition;

    pub(crate) fn label(self) -> u8
        ensures { result ≡ definition.state_label self }
    {
        match self {
            PcompState::WaitEnable => pcomp_state::WAIT_ENABLE,
            PcompState::WaitDir => pcomp_state::WAIT_DIR,
            PcompState::WaitPreStart => pcomp_state::WAIT_PRE_START,
            PcompState::WaitRising => pcomp_state::WAIT_RISING,
            PcompState::WaitFalling => pcomp_state::WAIT_FALLING,
        }
    }
}

impl Sign {
    ghost use Rattle.std.specs.Prelude.{◌≤ℤ◌, ◌+ℤ◌, pos};
    ghost use Rattle.pb_pcomp.specs.Pcomp as definition;

    /// The direction of a distance.
    fn of(distance: i64) -> Sign
        ensures { result ≡ definition.sign_of distance }
    {
        if distance < 0 {
            Sign::Negative
        } else {
            Sign::Positive
        }
    }

    /// A distance counted in this direction.
    fn along(self, distance: i128) -> i128
        requires low { pos 0 ≤ℤ (distance +ℤ pos 0x1_0000_0000_0000_0000) }
        requires high { distance ≤ℤ pos 0x1_0000_0000_0000_0000 }
        ensures { result ≡ definition.along self distance }
    {
        match self {
            Sign::Positive => distance,
            Sign::Negative => -distance,
        }
    }

    /// Where counting begins.
    fn base(self, settings: &PcompSettings, origin: i32) -> i64
        ensures { result ≡ definition.base_of settings.now.relative settings.now.start self origin }
    {
        match (settings.relative, self) {
            (Reference::Absolute, _) => i64::from(settings.start),
            (Reference::Relative, Sign::Positive) => i64::from(origin) + i64::from(settings.start),
            (Reference::Relative, Sign::Negative) => i64::from(origin) - i64::from(settings.start),
        }
    }
}

fn distance(position: i32, origin: i32) -> i64
    ensures { result ≡ position -ℤ origin }
{
    i64::from(position) - i64::from(origin)
}

impl PcompRegisters {
    ghost use Rattle.pb_pcomp.specs.Pcomp as definition;

    fn progress(self, inputs: &Inputs) -> i128
        ensures { result ≡ definition.progress self inputs.now }
    {
        let inp = i128::from(inputs.positions[0]);
        self.sign.along(inp - i128::from(self.base))
    }

    fn rising_at(self, settings: &PcompSettings) -> u64
        ensures value { result ≡ definition.rising_at settings.now self }
        ensures bound { result ≤ 0xffff_fffe_0000_0001 }
    {
        u64::from(self.produced) * u64::from(settings.step)
    }

    fn falling_at(self, settings: &PcompSettings) -> u64
        ensures { result ≡ definition.falling_at settings.now self }
    {
        self.rising_at(settings) + u64::from(settings.width)
    }

    fn headed(self, settings: &PcompSettings, sign: Sign, state: PcompState) -> PcompRegisters
        ensures { result ≡ definition.headed settings.now self sign state }
    {
        PcompRegisters {
            state,
            sign,
            base: sign.base(settings, self.origin),
            ..self
        }
    }

    /// A run begins in the direction that is set.
    fn started(self, settings: &PcompSettings) -> PcompRegisters
        ensures { result ≡ definition.started settings.now.direction settings.now self }
    {
        let first = if settings.pre_start == 0 {
            PcompState::WaitRising
        } else {
            PcompState::WaitPreStart
        };
        match settings.direction {
            Direction::Positive => self.headed(settings, Sign::Positive, first),
            Direction::Negative => self.headed(settings, Sign::Negative, first),
            Direction::Either => PcompRegisters {
                state: PcompState::WaitDir,
                ..self
            },
        }
    }

    /// The pulse falls and is counted.
    fn fallen(self, settings: &PcompSettings) -> PcompRegisters
        requires { self.produced < 0xffff_ffff }
        ensures value { result ≡ definition.fallen settings.now self }
        ensures counts { definition.CanCount result.state result.produced }
    {
        let produced = self.produced + 1;
        if produced >= settings.last_pulse() {
            PcompRegisters {
                state: PcompState::WaitEnable,
                out: false,
                active: false,
                produced,
                ..self
            }
        } else {
            PcompRegisters {
                state: PcompState::WaitRising,
                out: false,
                produced,
                ..self
            }
        }
    }

    fn wait_enable(self, settings: &PcompSettings, inputs: &Inputs) -> PcompRegisters
        ensures { result ≡ definition.compared PcompState.WaitEnable settings.now self inputs.now }
    {
        if self.enable_before || !inputs.bits[pcomp::ENABLE as usize] {
            return self;
        }
        let begun = PcompRegisters {
            origin: inputs.positions[0],
            produced: 0,
            active: true,
            ..self
        };
        begun.started(settings)
    }

    fn wait_dir(self, settings: &PcompSettings, inputs: &Inputs) -> PcompRegisters
        ensures { result ≡ definition.compared PcompState.WaitDir settings.now self inputs.now }
    {
        let distance = distance(inputs.positions[0], self.origin);
        if distance.unsigned_abs() > u64::from(settings.pre_start) {
            self.headed(settings, Sign::of(distance), PcompState::WaitRising)
        } else {
            self
        }
    }

    fn wait_pre_start(self, settings: &PcompSettings, inputs: &Inputs) -> PcompRegisters
        ensures { result ≡ definition.compared PcompState.WaitPreStart settings.now self inputs.now }
    {
        if self.progress(inputs) <= -i128::from(settings.pre_start) {
            PcompRegisters {
                state: PcompState::WaitRising,
                ..self
            }
        } else {
            self
        }
    }

    fn wait_rising(self, settings: &PcompSettings, inputs: &Inputs) -> PcompRegisters
        ensures { result ≡ definition.compared PcompState.WaitRising settings.now self inputs.now }
    {
        if self.progress(inputs) >= i128::from(self.rising_at(settings)) {
            PcompRegisters {
                state: PcompState::WaitFalling,
                out: true,
                ..self
            }
        } else {
            self
        }
    }

    fn wait_falling(self, settings: &PcompSettings, inputs: &Inputs) -> PcompRegisters
        requires { self.produced < 0xffff_ffff }
        ensures value { result ≡ definition.compared PcompState.WaitFalling settings.now self inputs.now }
        ensures counts { definition.CanCount self.state self.produced → definition.CanCount result.state result.produced }
    {
        if self.progress(inputs) >= i128::from(self.falling_at(settings)) {
            self.fallen(settings)
        } else {
            self
        }
    }

    /// The registers one tick later, but for the kept input.
    pub(crate) fn compared_after(self, settings: &PcompSettings, inputs: &Inputs) -> PcompRegisters
        requires { definition.CanCount self.state self.produced }
        ensures value { result ≡ definition.compared_after settings.now self inputs.now }
        ensures counts { definition.CanCount result.state result.produced }
    {
        if !inputs.bits[pcomp::ENABLE as usize] {
            return PcompRegisters {
                state: PcompState::WaitEnable,
                out: false,
                active: false,
                ..self
            };
        }
        match self.state {
            PcompState::WaitEnable => self.wait_enable(settings, inputs),
            PcompState::WaitDir => self.wait_dir(settings, inputs),
            PcompState::WaitPreStart => self.wait_pre_start(settings, inputs),
            PcompState::WaitRising => self.wait_rising(settings, inputs),
            PcompState::WaitFalling => self.wait_falling(settings, inputs),
        }
    }
}
