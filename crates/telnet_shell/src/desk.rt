//! The web server and the shell on one node. The port at which a connection was opened determines its application.

use crate::shell::Shell;
use app_events::{App, Ending, Now, Want};
use httpd::{Httpd, Web};
use uip_wire::Port;

/// The application on one connection: the shell if it was opened at port 23, else the web server.
#[derive(Drop)]
pub enum Desk {
    Web(Httpd),
    Shell(Shell),
}

impl App for Desk {
    ghost use Rattle.file_tree.specs.Site.{SiteContent, files_of};
    ghost use Rattle.telnet_shell.specs.DeskSpec.{desk_spec, is_served_at};
    ghost use Rattle.telnet_shell.specs.Lemmas.DeskLaws.{desk_lawful, desk_starts};
    ghost use Rattle.telnet_shell.specs.DeskRepresents.{DeskRepresents, desk_same_left};

    type Shared = Web;

    ghost Config = { SiteContent };

    ghost config = { λ web. web.site };

    ghost numbers = { λ web. web.hits };

    ghost app_spec = { λ site. desk_spec (files_of site) };

    ghost represents = { DeskRepresents };

    ghost served = { is_served_at };

    fn serves(port: Port) -> bool {
        Httpd::serves(port) || Shell::serves(port)
    }

    fn idle() -> Desk {
        Desk::Web(Httpd::idle())
    }

    fn connected(&mut self, shared: &mut Web, port: Port) {
        if Shell::serves(port) {
            let mut shell = Shell::idle();
            shell.connected(shared, port);
            *self = Desk::Shell(shell);
        } else {
            let mut web = Httpd::idle();
            web.connected(shared, port);
            *self = Desk::Web(web);
        }
    }

    fn newdata(&mut self, shared: &mut Web, piece: &[u8]) {
        match self {
            Desk::Web(web) => web.newdata(shared, piece),
            Desk::Shell(shell) => shell.newdata(shared, piece),
        }
    }

    fn is_due(&self, shared: &Web) -> bool {
        match self {
            Desk::Web(web) => web.is_due(shared),
            Desk::Shell(shell) => shell.is_due(shared),
        }
    }

    fn prepare(&mut self, shared: &Web, now: &Now) {
        match self {
            Desk::Web(web) => web.prepare(shared, now),
            Desk::Shell(shell) => shell.prepare(shared, now),
        }
    }

    fn want(&self, shared: &Web) -> Want {
        match self {
            Desk::Web(web) => web.want(shared),
            Desk::Shell(shell) => shell.want(shared),
        }
    }

    fn fill(&self, shared: &Web, out: &mut [u8]) {
        match self {
            Desk::Web(web) => web.fill(shared, out),
            Desk::Shell(shell) => shell.fill(shared, out),
        }
    }

    fn acked(&mut self, shared: &mut Web, count: usize) {
        match self {
            Desk::Web(web) => web.acked(shared, count),
            Desk::Shell(shell) => shell.acked(shared, count),
        }
    }

    fn polled(&mut self, shared: &mut Web) {
        match self {
            Desk::Web(web) => web.polled(shared),
            Desk::Shell(shell) => shell.polled(shared),
        }
    }

    fn ended(&mut self, shared: &mut Web, how: Ending) {
        match self {
            Desk::Web(web) => web.ended(shared, how),
            Desk::Shell(shell) => shell.ended(shared, how),
        }
    }

    ghost lawful = { λ a site. desk_lawful (files_of site) (DeskRepresents a site) };

    ghost starts = { λ site. desk_starts (files_of site) };

    ghost same_left = { desk_same_left };
}
