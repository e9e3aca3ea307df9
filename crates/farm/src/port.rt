//! The address and port at which the program listens, and until when.
ghost use Rattle.std.specs.Prelude.{◌≡◌, None, refl};

use farm_io::{Accepted, Door, DoorEnd, DoorErr, Listening, TcpConn, TcpDoor};
use std::io::{ErrorKind, Read, Stdin};
use std::net::{IpAddr, Ipv4Addr};
use std::thread;
use std::thread::Threads;

/// Reads standard input to its end. What it says is not looked at.
fn await_end(mut input: Stdin) {
    let mut block = [0; 1024];
    for _ in 0..u64::MAX {
        match input.read(&mut block) {
            Ok(0) => return,
            Ok(_) => {}
            Err(error) if error.kind() == ErrorKind::Interrupted => {}
            Err(_) => return,
        }
    }
}

/// Ends the door from a thread of its own, as soon as standard input has ended. Returns whether that thread was started.
fn end_with_input(rt: &HostRuntime, threads: &impl Threads, end: DoorEnd) -> bool {
    let input = rt.stdin();
    let watch = move || {
        await_end(input);
        end.end();
    };
    thread::spawn(threads, watch).is_ok()
}

/// The sockets of the machine as a door that says on standard error at which port it listens.
#[derive(Drop)]
pub(crate) struct Announced<'a, H> {
    rt: &'a HostRuntime,
    threads: &'a H,
    door: TcpDoor<&'a HostRuntime>,
}

impl<'a, H: Threads> Announced<'a, H> {
    pub(crate) fn new(rt: &'a HostRuntime, threads: &'a H) -> Announced<'a, H>
        ensures { (result.door.accepted ≡ 0) × (result.door.returned ≡ 0) }
    {
        Announced {
            rt,
            threads,
            door: TcpDoor::new(rt, rt.alloc()),
        }
    }

    /// Lets nobody in any more once standard input has ended. Where there is no thread or no room for that, the door goes on.
    fn watch_input(&mut self)
        ensures counts { (self.new.door.accepted ≡ self.old.door.accepted) × (self.new.door.returned ≡ self.old.door.returned) × (self.new.door.faults ≡ self.old.door.faults) }
        ensures listens { self.new.door.listens ≡ self.old.door.listens }
    {
        let is_watched = match self.door.end_handle() {
            Some(end) => end_with_input(self.rt, self.threads, end),
            None => false,
        };
        if !is_watched {
            let _ = self.rt.eprintln(
                "farm: standard input cannot be watched, since no thread was left for it: its end does not end the server",
            );
        }
    }

    /// Says at which port the door listens, and of which address where that is not 127.0.0.1. Where standard error cannot be
    /// written, nobody can be told.
    fn announce(&self) {
        if let Some(listener) = &self.door.listener
            && let Ok(address) = listener.local_addr()
        {
            let port = address.port();
            let ip = address.ip();
            let _ = if ip == IpAddr::V4(Ipv4Addr::LOCALHOST) {
                eprintln!(self.rt; "farm: listening at port {port}")
            } else {
                eprintln!(self.rt; "farm: listening at port {port} of {ip}")
            };
        }
    }
}

impl<'a, H: Threads> Door for Announced<'a, H> {
    type Conn = TcpConn<&'a HostRuntime>;

    ghost state = { λ d. record { coming = None; back = None; accepted = d.door.accepted; returned = d.door.returned; listens = d.door.listens } };

    ghost faults = { λ d. d.door.faults };

    fn listen(&mut self, at: Listening) -> Result<(), DoorErr> {
        let heard = self.door.listen(at);
        if heard.is_ok() {
            self.announce();
            if at.until_input_ends {
                self.watch_input();
            }
        }
        heard
    }

    fn await_next(&mut self) {
        self.door.await_next();
    }

    fn accept(&mut self) -> Accepted<TcpConn<&'a HostRuntime>> {
        self.door.accept()
    }

    fn ask_to_close(&mut self, before: u64) {
        self.door.ask_to_close(before);
    }

    fn give_back(&mut self, conn: TcpConn<&'a HostRuntime>) {
        self.door.give_back(conn);
    }

    ghost sides = { λ _. (refl, refl) };
}
