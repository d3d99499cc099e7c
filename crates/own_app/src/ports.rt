//! The ports that the program may open, and those that are open.

ghost use Rattle.std.specs.Prelude.{◌≡◌};
ghost use Rattle.own_app.specs.Ports.{is_open_port, is_program_port};

use uip_wire::WEB_PORT;

/// Returns whether a number is that of a port which the program may open: from 1 to 65535, and not the port of web pages.
pub fn is_program_port(number: u32) -> bool
    ensures { result ≡ is_program_port number }
{
    number > 0 && number <= 65535 && number != WEB_PORT as u32
}

/// Returns whether a port is open.
// A loop: `contains` would use vectors, whose code is larger.
pub fn is_open_port(ports: &[u16], port: u16) -> bool
    ensures { result ≡ is_open_port ports.now port }
{
    for open in ports.iter() {
        if *open == port {
            return true;
        }
    }
    false
}
