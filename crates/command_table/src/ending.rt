//! How a program ends whose command line names no command.

ghost use Rattle.std.specs.Prelude.{◌≡◌};
ghost use Rattle.command_table.specs.declared.ending.Ending.{Ending};

/// How a program ends whose command line names no command.
#[derive(Clone, Copy)]
pub enum Ending {
    /// Help or the version was asked for, and is printed.
    Shown,
    /// Memory was missing, as a sentence on standard error says.
    Memory,
    /// The words are wrong, as a sentence on standard error says.
    Wrong,
}

impl Ending {
    /// The exit status: 0 where something was shown, 1 where memory was missing, 2 where the words are
    /// wrong.
    pub fn status(self) -> u8
        ensures shown { self ≡ Ending.Shown → result ≡ 0 }
        ensures memory { self ≡ Ending.Memory → result ≡ 1 }
        ensures wrong { self ≡ Ending.Wrong → result ≡ 2 }
    {
        match self {
            Ending::Shown => 0,
            Ending::Memory => 1,
            Ending::Wrong => 2,
        }
    }
}
