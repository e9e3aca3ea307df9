ghost use Rattle.std.specs.Prelude.{◌≡◌, ◌++◌, ◌∷◌, [], ◌<◌, ◌≤◌, length, None, position, IfOk, IfSome, OnErr, true};
ghost use Rattle.std.specs.Str.{bytes_eq};
ghost use Rattle.farm_kinds.specs.declared.events.Event.TheVariants as events;
ghost use Rattle.farm_model.specs.Limits.{max_hosts};
ghost use Rattle.farm_model.specs.State.{host_number, up_number};
ghost use Rattle.farm_model.specs.Changes.{host_as};
ghost use Rattle.farm_model.specs.Farm.{Stepped};

use super::ContestState;
use farm_kinds::{MAX_HOSTS, Name, NoMemory, Reply};
use farm_model::Host;

impl ContestState {
    /// Brings a host up, under its old number where its name was entered before.
    pub fn bring_up(&mut self, name: Name) -> Reply
        ensures { Stepped self.old (events.Host name) self.new result }
    {
        if self.up_number(&name).is_some() {
            return Reply::Known { name };
        }
        if let Some(place) = self.host_place(&name) {
            self.hosts[place] = Host { name, up: true };
            return Reply::Host { name };
        }
        if self.hosts.len() >= MAX_HOSTS as usize {
            return Reply::Full { limit: MAX_HOSTS };
        }
        match self.add_host(name) {
            Ok(()) => Reply::Host { name },
            Err(NoMemory) => Reply::NoMemory,
        }
    }

    /// Where the host of this name stands.
    fn host_place(&self, name: &Name) -> Option<usize>
        ensures place { result ≡ position (λ host. bytes_eq host.name name.now) self.now.hosts }
        ensures within { IfSome result (λ place. place < length self.now.hosts) }
    {
        self.host_names.find(name)
    }

    /// Adds a host, which is up.
    fn add_host(&mut self, name: Name) -> Result<(), NoMemory>
        requires few { length self.old.hosts < max_hosts }
        requires unknown { host_number self.old.hosts name ≡ None }
        ensures added { IfOk result (λ done. self.new ≡ record self.old { hosts = self.old.hosts ++ host_as name true ∷ [] }) }
        ensures unchanged { OnErr result (self.new ≡ self.old) }
    {
        self.hosts.reserve(1)?;
        self.host_names.reserve()?;
        self.judge.add_host()?;
        self.hosts.push_reserved(Host { name, up: true });
        self.host_names.push_reserved(name);
        Ok(())
    }

    /// The number of the host of this name, where it is up.
    pub fn up_number(&self, name: &Name) -> Option<u32>
        ensures number { result ≡ up_number self.now.hosts name.now }
        ensures known { IfSome result (λ number. (1 ≤ number) × (number ≤ length self.now.hosts)) }
    {
        let place = self.host_names.find(name)?;
        if !self.hosts[place].up {
            return None;
        }
        Some(place as u32 + 1)
    }

    /// Brings a host down, and ends its leases.
    pub fn bring_down(&mut self, host: Name) -> Reply
        ensures { Stepped self.old (events.Down host) self.new result }
    {
        let Some(number) = self.up_number(&host) else {
            return Reply::NoHost { name: host };
        };
        self.hosts[number as usize - 1] = Host {
            name: host,
            up: false,
        };
        Reply::Ended {
            count: self.judge.down(number),
        }
    }
}
