//! Commands and their letters.
ghost use Rattle.std.specs.Prelude.{◌≡◌};
ghost use Rattle.gcode_text.specs.Machine.{is_among, plain_commands, command_of, takes};

/// What a command does.
#[derive(Clone, Copy)]
pub(crate) enum Command {
    /// It drives to a position.
    Drive,
    /// It homes axes.
    Home,
    /// It sets what the position counts as.
    Set,
    /// It moves nothing.
    Plain,
}

#[tactic(auto, unfolding(crate::specs::Machine::command_of))]
pub(crate) fn command_of(word: &[u8]) -> Option<Command>
    ensures { result ≡ command_of word.now }
{
    if word == b"G0".as_slice() || word == b"G1".as_slice() {
        Some(Command::Drive)
    } else if word == b"G28".as_slice() {
        Some(Command::Home)
    } else if word == b"G92".as_slice() {
        Some(Command::Set)
    } else if is_plain(word) {
        Some(Command::Plain)
    } else {
        None
    }
}

#[tactic(auto, unfolding(crate::specs::Machine::plain_commands))]
fn is_plain(word: &[u8]) -> bool
    ensures { result ≡ is_among plain_commands word.now }
{
    word == b"G21".as_slice()
        || word == b"G90".as_slice()
        || word == b"M82".as_slice()
        || word == b"M84".as_slice()
        || word == b"M104".as_slice()
        || word == b"M106".as_slice()
        || word == b"M107".as_slice()
        || word == b"M109".as_slice()
        || word == b"M140".as_slice()
        || word == b"M190".as_slice()
}

#[tactic(auto, unfolding(crate::specs::Machine::takes))]
pub(crate) fn takes(command: Command, letter: u8) -> bool
    ensures { result ≡ takes command letter }
{
    match command {
        Command::Drive => {
            letter == b'X' || letter == b'Y' || letter == b'Z' || letter == b'E' || letter == b'F'
        }
        Command::Home => letter == b'X' || letter == b'Y' || letter == b'Z',
        Command::Set => letter == b'X' || letter == b'Y' || letter == b'Z' || letter == b'E',
        Command::Plain => letter == b'S',
    }
}
