// The settings of the order-preserving walk, and the bytes that give them.
#![tactic(auto)]

ghost use Rattle.std.specs.Prelude.{◌≡◌};
ghost use Rattle.call_answers.specs.Answers.{settings_in};
ghost use Rattle.walk_settings.specs.Settings.{settings_of};

// 01, 'The four walks': "settings: spr better, spm better, prefer existing".
#[derive(Clone, Copy)]
pub struct Settings {
    pub spr: bool,
    pub spm: bool,
    pub prefer: bool,
}

// "A setting is one byte: zero is off, all else on".
pub fn settings_in(spr_better: u8, spm_better: u8, prefer_existing: u8) -> Settings
    ensures { settings_of result ≡ settings_in spr_better spm_better prefer_existing }
{
    Settings {
        spr: spr_better != 0,
        spm: spm_better != 0,
        prefer: prefer_existing != 0,
    }
}
