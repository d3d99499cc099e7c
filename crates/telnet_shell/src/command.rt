/// A command of a session. An unused slot of a queue holds the empty line.
#[derive(Clone, Copy, Debug, Drop, PartialEq, Eq)]
pub enum Command {
    /// The reply to an offer of an option: the verb that refuses, and the option (RFC 854).
    Refuse(u8, u8),
    Help,
    Stats,
    Conns,
    Ticks,
    Quit,
    /// An empty line.
    Blank,
    /// Any other line.
    Other,
}

impl Default for Command {
    ghost use Rattle.std.specs.Prelude.{◌≡◌};
    ghost use Rattle.telnet_shell.specs.declared.command.Command.TheVariants.{Blank};

    ghost is_default = { λ command. command ≡ Blank };

    fn default() -> Command {
        Command::Blank
    }
}
